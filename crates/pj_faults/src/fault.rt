//! The faults of names and scopes, and which of them counts.
ghost use Rattle.std.specs.Prelude.{◌≡◌, ◌||◌, ◌&&◌, ◌==◌, nat_lt};
ghost use Rattle.pj_faults.specs.First.{rank, before, sooner, when};

/// What is wrong with a name or its place.
#[derive(Clone, Copy, Debug, PartialEq, Eq)]
pub enum ScopeKind {
    /// More parameters, arguments, fields, types or introduced names than are allowed.
    Many,
    /// A name of a module is bound, or a package has another name than the one that is asked for.
    ModuleName,
    /// A parameter or a field has the name of one before it.
    Twice,
    /// A name that a loop introduces is read where no scope introduces it.
    LoopName,
    /// A global is set that has the name of a local.
    GlobalLocal,
    /// `break` or `continue` outside a loop, or `return` outside a method's body.
    Outside,
    /// A name with a form of its own is bound.
    Reserved,
}

/// A fault, and the place of the first byte at which it stands.
#[derive(Clone, Copy, Debug, PartialEq, Eq)]
pub struct Fault {
    pub place: usize,
    pub kind: ScopeKind,
}

impl ScopeKind {
    /// The place of a kind in the order in which kinds count at one place.
    pub fn rank(self) -> u8
        ensures { result ≡ rank self }
    {
        match self {
            ScopeKind::Many => 0,
            ScopeKind::ModuleName => 1,
            ScopeKind::Twice => 2,
            ScopeKind::LoopName => 3,
            ScopeKind::GlobalLocal => 4,
            ScopeKind::Outside => 5,
            ScopeKind::Reserved => 6,
        }
    }
}

/// Whether a fault counts before another one: its place is lower, or the place is the same and its kind comes before.
#[tactic(auto, unfolding(crate::specs::First::before))]
fn before(a: Fault, b: Fault) -> bool
    ensures { result ≡ before a b }
{
    a.place < b.place || (a.place == b.place && a.kind.rank() < b.kind.rank())
}

/// The one of two faults that counts; the first where neither is before the other.
#[tactic(auto, unfolding(crate::specs::First::sooner))]
pub fn sooner(a: Option<Fault>, b: Option<Fault>) -> Option<Fault>
    ensures { result ≡ sooner a b }
{
    match a {
        None => b,
        Some(first) => match b {
            None => Some(first),
            Some(second) => {
                if before(second, first) {
                    Some(second)
                } else {
                    Some(first)
                }
            }
        },
    }
}

/// A fault, where it is one.
#[tactic(auto, unfolding(crate::specs::First::when))]
pub fn when(is_fault: bool, kind: ScopeKind, place: usize) -> Option<Fault>
    ensures { result ≡ when is_fault kind place }
{
    if is_fault {
        Some(Fault { place, kind })
    } else {
        None
    }
}
