//! A client's look at one object.
ghost use Rattle.std.specs.Prelude.{◌≡◌, ℕ, ◌≤◌, ◌<◌, ◌+◌, ◌-◌, ◌*◌, ◌/◌, ◌^◌, true, false, Some, None, find, slice_get, if◌then◌else◌};
ghost use Rattle.std.specs.Option.{option_copied};
ghost use Rattle.std.specs.List.{AllByRecursion};
ghost use Rattle.world_rules.specs.Flags.{is_player};
ghost use Rattle.world_rules.specs.Ranges.{ObjectFits, PlaceFits};
ghost use Rattle.world_rules.specs.declared.limits.TheConstants.{MAX_COORDINATE};
ghost use Rattle.world_rules.specs.declared.object.Object.{Object};
ghost use Rattle.world_cells.specs.Grid.{is_always};
ghost use Rattle.world_places.specs.Places.{is_special};
ghost use Rattle.world_sim.specs.Glances.{glance_of};
ghost use Rattle.world_scope.specs.Sight.{distance, is_hidden};

use world_rules::flags::is_player;
use world_rules::{Object, Place};
use world_sim::{Glance, Role};

/// An object that a client sees.
#[derive(Clone, Copy, Debug, PartialEq, Eq)]
pub struct Seen {
    /// The object's number.
    pub object: u32,
    /// How near it is: 0 for the client's own player and for what is always seen, and else the quarter of the
    /// radius that it lies in, 0 to 3.
    pub level: u8,
}

/// Who looks: a client, its player if it has one, and how far players see, in centimetres. Beside them is what each look asks of
/// the player, so that none asks whether there is one.
#[derive(Clone, Copy)]
pub struct Viewer {
    pub client: u8,
    pub player: Option<Object>,
    pub radius: u32,
    pub place: Place,
    pub team: u8,
    /// One more than the radius, and 0 without a player.
    pub reach: u64,
    /// What a centimetre is of a quarter of the reach, in parts of 2 ^ 48, rounded up; 0 without a player.
    pub share: u64,
}

// How far two places are from one another: the greater of the ways along x and along y.
fn distance(a: &Place, b: &Place) -> u32
    ensures { result ≡ distance a.now b.now }
{
    a.x.abs_diff(b.x).max(a.y.abs_diff(b.y))
}

// Whether an object is hidden from a team.
fn is_hidden(team: u8, g: &Glance) -> bool
    ensures { (o : Object) → g.now ≡ glance_of o → result ≡ is_hidden team o }
{
    let armed = matches!(g.role, Role::ArmedMine | Role::OldMine);
    armed & (g.team != team)
}

// Whether an object's kind is always seen.
fn is_always(g: &Glance) -> bool
    ensures { (o : Object) → g.now ≡ glance_of o → result ≡ is_always o }
{
    matches!(g.role, Role::Flag | Role::Clock)
}

// What a centimetre is of a quarter of the reach of this radius, in parts of 2 ^ 48, rounded up.
fn share_of(radius: u32) -> u64
    ensures { result ≡ (2 ^ 50 + radius) / (radius + 1) }
{
    ((1 << 50) + u64::from(radius)) / (u64::from(radius) + 1)
}

// The quarter of the reach that lies so far away, by the share of a centimetre: one multiplication in place of a division or of
// three comparisons. What the share is rounded up by makes less than a part for all that lies in the field.
fn quarter(whole: u64, share: u64, away: u32) -> u8
    requires whole { whole ≤ 2 ^ 32 }
    requires share { share ≡ (2 ^ 50 + (whole - 1)) / whole }
    requires near { away < whole }
    requires field { away ≤ MAX_COORDINATE }
    ensures value { result ≡ 4 * away / whole }
{
    (u64::from(away) * share >> 48) as u8
}

// The client's player: as a rule the object of the client's number.
fn player_of(client: u8, objects: &[Object]) -> Option<&Object>
    requires one { (n : ℕ) (o : Object) → slice_get objects.now n ≡ Some o → is_player client o ≡ true
        → find (is_player client) objects.now ≡ Some o }
    ensures { option_copied result ≡ find (is_player client) objects.now }
{
    if let Some(first) = objects.get(usize::from(client)) {
        if is_player(client, first) {
            return Some(first);
        }
    }
    objects.iter().find(|o| is_player(client, o))
}

impl Viewer {
    ghost use Rattle.world_scope.specs.Scope.{player_sees, quarter, seen};
    ghost use Rattle.world_scope.specs.Views.{look, IsReady};

    /// The look of a client at these objects, from its player among them.
    #[tactic(auto, using(crate::proofs::Shares::found_fits))]
    pub fn of(client: u8, radius: u32, objects: &[Object]) -> Viewer
        requires fits { AllByRecursion ObjectFits objects.now }
        requires one { (n : ℕ) (o : Object) → slice_get objects.now n ≡ Some o → is_player client o ≡ true
            → find (is_player client) objects.now ≡ Some o }
        ensures look { look result ≡ record { client = client; player = find (is_player client) objects.now; radius = radius } }
        ensures ready { IsReady result }
    {
        match player_of(client, objects) {
            Some(player) => Viewer {
                client,
                player: Some(*player),
                radius,
                place: player.place,
                team: player.team,
                reach: u64::from(radius) + 1,
                share: share_of(radius),
            },
            None => Viewer {
                client,
                player: None,
                radius,
                place: Place { x: 0, y: 0 },
                team: 0,
                reach: 0,
                share: 0,
            },
        }
    }

    // An object that isn't hidden, as the client's player sees it, if there is a player and it does.
    #[tactic(auto, using(crate::proofs::Sights::seen_none, crate::proofs::Sights::seen_some, crate::proofs::Shares::near_enough))]
    fn seen_by_player(&self, object: u32, place: Place) -> Option<Seen>
        requires ready { IsReady self.now }
        requires fits { PlaceFits place }
        ensures { (o : Object) → place ≡ o.place → is_hidden self.now.team o ≡ false
            → result ≡ (if player_sees self.now.radius self.now.player o
            then Some (record { object = object; level = quarter self.now.radius self.now.player o }) else None) }
    {
        let away = distance(&self.place, &place);
        if u64::from(away) >= self.reach {
            return None;
        }
        Some(Seen {
            object,
            level: quarter(self.reach, self.share, away),
        })
    }

    // The same of one that may be hidden, or is always seen.
    #[tactic(auto, using(crate::proofs::Sights::always_seen, crate::proofs::Sights::player_seen, crate::proofs::Sights::hidden_unseen))]
    fn special_sight(&self, object: u32, place: Place, g: &Glance) -> Option<Seen>
        requires ready { IsReady self.now }
        requires fits { PlaceFits place }
        ensures { (o : Object) → g.now ≡ glance_of o → place ≡ o.place → o.alive ≡ true
            → (is_player self.now.client o ≡ true → self.now.player ≡ Some o) → result ≡ seen (look self.now) (object, o) }
    {
        if is_always(g) {
            return Some(Seen { object, level: 0 });
        }
        if is_hidden(self.team, g) {
            return None;
        }
        self.seen_by_player(object, place)
    }

    /// A living object as the client sees it, if it does, by its place, and by a glance where it may be more than that. Nobody asks
    /// whose player it is: the client's own one is where it looks from, so it sees itself at level 0.
    #[tactic(auto, using(crate::proofs::Sights::player_seen, crate::proofs::Sights::plain_other, crate::proofs::Sights::plain_open))]
    pub fn sight(&self, object: u32, place: Place, special: bool, g: &Glance) -> Option<Seen>
        requires ready { IsReady self.now }
        requires fits { PlaceFits place }
        ensures { (o : Object) → g.now ≡ glance_of o → place ≡ o.place → (is_special o ≡ true → special ≡ true)
            → o.alive ≡ true → (is_player self.now.client o ≡ true → self.now.player ≡ Some o)
            → result ≡ seen (look self.now) (object, o) }
    {
        if special {
            return self.special_sight(object, place, g);
        }
        self.seen_by_player(object, place)
    }
}
