//! Worked examples of answers, over two sequences: one from second 0 of a minute on, and one from its second 1 on.

ghost use Rattle.std.specs.Prelude.{◌≡◌, None, Some};
ghost use Rattle.definitions.specs.declared.answer.Answer.TheVariants.{Decided, Nothing, Undecided};
ghost use Rattle.definitions.specs.answers.Answers.{IsAdmitted, IsAnswer};
ghost use Rattle.definitions.specs.answers.FirstTwo.{answer_from};
ghost use Rattle.definitions.specs.sequences.Keys.{key_of};
ghost use Rattle.definitions.specs.examples.Sequences.{IsEither, from_place};

/// Costs of 0 and 1 decide for the one, however little they are apart, and equal costs leave it undecided. Where the
/// ceiling admits one alone there is no next cost.
pub fn answers_of_two()
    ensures decided { IsAnswer IsEither (λ q. q.second) (Decided 0 (from_place 720 0) (Some 1)) }
    ensures tie { IsAnswer IsEither (λ q. 0) (Undecided 0 (from_place 720 0) (from_place 720 1)) }
    ensures alone { IsAnswer (IsAdmitted IsEither (λ q. q.second) 0) (λ q. q.second) (Decided 0 (from_place 720 0) None) }
    ensures not_tied { ¬ (IsAnswer IsEither (λ q. q.second) (Undecided 0 (from_place 720 0) (from_place 720 1))) }
{}

/// The answer of two keys: of costs 0 and 1, of equal costs, and of one key alone.
pub fn answers_of_keys()
    ensures decided { answer_from (Some (key_of 0 (from_place 720 0))) (Some (key_of 1 (from_place 720 1))) ≡ Decided 0 (from_place 720 0) (Some 1) }
    ensures tie { answer_from (Some (key_of 0 (from_place 720 0))) (Some (key_of 0 (from_place 720 1))) ≡ Undecided 0 (from_place 720 0) (from_place 720 1) }
    ensures alone { answer_from (Some (key_of 5 (from_place 720 0))) None ≡ Decided 5 (from_place 720 0) None }
    ensures none { answer_from None None ≡ Nothing }
{}
