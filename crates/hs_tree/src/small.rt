//! What small programs give, and their texts. The functions here do nothing: a caller has their clauses.

ghost use Rattle.hs_tree.specs.SmallTexts.{FlatText, NoMutArgText, NoAssignText};
ghost use Rattle.hs_tree.specs.SmallPrograms.{RightSideFirst, ShortCircuit, BothOperands, LoopReturns, LoopEnds, LoopIsCounted, EmptyLoops, MutableParameterFirst, MutableParameterIsUsed, OperandBeforeQuestionMark, QuestionMarkReturns, MovedLocalHasNoRead, LaterNothingMoves, FoldEndsEarly, FoldGoesOn, ReturnFromNestedLoops, NestedLoopsAreCounted, OuterLocalIsAssigned, OuterLocalStays, OperandIsReadFirst, LentSequenceAtExit, LentSequenceAtEnd, LentLocalBehindCall, PanicAtEachPlace, ExitAtEachPlace, Sum};

/// Small programs, each with what a call of it gives, and after how many turns.
pub fn small_programs_run()
    ensures right_side_first { RightSideFirst }
    ensures short_circuit { ShortCircuit }
    ensures both_operands { BothOperands }
    ensures loop_returns { LoopReturns }
    ensures loop_ends { LoopEnds }
    ensures loop_is_counted { LoopIsCounted }
    ensures empty_loops { EmptyLoops }
    ensures mutable_parameter_first { MutableParameterFirst }
    ensures mutable_parameter_is_used { MutableParameterIsUsed }
    ensures operand_before_question_mark { OperandBeforeQuestionMark }
    ensures question_mark_returns { QuestionMarkReturns }
    ensures moved_local_has_no_read { MovedLocalHasNoRead }
    ensures later_nothing_moves { LaterNothingMoves }
    ensures fold_ends_early { FoldEndsEarly }
    ensures fold_goes_on { FoldGoesOn }
    ensures return_from_nested_loops { ReturnFromNestedLoops }
    ensures nested_loops_are_counted { NestedLoopsAreCounted }
    ensures outer_local_is_assigned { OuterLocalIsAssigned }
    ensures outer_local_stays { OuterLocalStays }
    ensures operand_is_read_first { OperandIsReadFirst }
    ensures lent_sequence_at_exit { LentSequenceAtExit }
    ensures lent_sequence_at_end { LentSequenceAtEnd }
    ensures lent_local_behind_call { LentLocalBehindCall }
    ensures panic_at_each_place { PanicAtEachPlace }
    ensures exit_at_each_place { ExitAtEachPlace }
    ensures sum { Sum }
{}

/// Small programs behind phases, each with its text.
pub fn small_programs_are_shown()
    ensures flat { FlatText }
    ensures no_mut_arg { NoMutArgText }
    ensures no_assign { NoAssignText }
{}
