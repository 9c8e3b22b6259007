//! The laws.
ghost use Rattle.relay_model.specs.Laws.{ItemsMayFollow, TakenAreChanges};
ghost use Rattle.relay_model.specs.Posts.{PostsWhatCame};

/// What a relay tells a spectator's server is an own list: each item may follow on those before it.
pub fn relay_items_may_follow()
    ensures { ItemsMayFollow }
{}

/// The packets that a client of a connection takes keep its copies such as a relay may show on, whatever happened at the connection.
pub fn taken_packets_keep_copies()
    ensures { TakenAreChanges }
{}

/// A spectator is posted the guaranteed events that were delivered to the relay, in order: all of them where no post was refused,
/// and else the first ones.
pub fn relay_posts_what_came()
    ensures { PostsWhatCame }
{}
