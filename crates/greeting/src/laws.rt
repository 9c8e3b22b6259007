//! Who keeps to the rules gets in.
ghost use Rattle.greeting.specs.Laws.{HelloIsChallenged, ChallengeIsTaken, AnswerIsRight};

/// A hello with the door's own protocol is challenged.
pub fn hello_is_challenged()
    ensures { HelloIsChallenged }
{}

/// The client takes the number of the challenge that answers its hello.
pub fn challenge_is_taken()
    ensures { ChallengeIsTaken }
{}

/// An answer with the number of its address and nonce is right.
pub fn answer_is_right()
    ensures { AnswerIsRight }
{}
