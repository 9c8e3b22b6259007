//! What holds of two ends under one key.
ghost use Rattle.datagram_tags.specs.Laws.{OtherEndVerifies, VerifiesOnlyTagged};

/// What one end tagged, the other verifies, and finds just these bytes.
pub fn other_end_verifies()
    ensures { OtherEndVerifies }
{}

/// What an end takes, the other end's key made: it carries exactly the tag of its bytes, number and way.
pub fn verifies_only_what_is_tagged()
    ensures { VerifiesOnlyTagged }
{}
