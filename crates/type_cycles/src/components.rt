//! Strongly connected components: types that lead to one another share a rank and a root.

ghost use Rattle.std.specs.Prelude.{◌≡◌, ◌==◌, true, slice_get};
ghost use Rattle.std.specs.List.{list_all, list_any};
ghost use Rattle.type_forms.specs.Parts.{parts_in};
ghost use Rattle.type_cycles.specs.Components as rules;

use orca_base::Items;

/// A type's membership in a component. Types are numbered as names of the top level are; `next` and `previous_at` are indices among a
/// type's parts.
#[derive(Clone, Copy)]
pub struct Membership {
    /// At least that of each of the type's parts.
    pub rank: usize,
    /// A type of the component, the same for all of them.
    pub root: usize,
    /// Which part of the type is nearer to the root.
    pub next: usize,
    /// In how many steps by such parts the root is reached.
    pub to_root: usize,
    /// Which type, nearer from the root, has this one as a part.
    pub previous: usize,
    /// Which of its parts this one is.
    pub previous_at: usize,
    /// In how many steps by such parts this type is reached from the root.
    pub from_root: usize,
}

/// What a type has before its component is found; no component has the rank 0.
pub const NO_MEMBER: Membership = Membership {
    rank: 0,
    root: 0,
    next: 0,
    to_root: 0,
    previous: 0,
    previous_at: 0,
    from_root: 0,
};

/// The membership of a type.
pub fn membership_at(members: &[Membership], number: usize) -> Membership
    ensures { result ≡ rules.membership members.now number }
{
    match members.get(number) {
        None => NO_MEMBER,
        Some(own) => *own,
    }
}

/// The types that a type names.
pub fn parts_at(parts: &[Items<usize>], number: usize) -> &[usize]
    ensures { result.now ≡ parts_in parts.now number }
{
    match parts.get(number) {
        None => &[],
        Some(all) => all.as_slice(),
    }
}

// The part of a type at this index.
fn part_at(parts: &[Items<usize>], number: usize, at: usize) -> Option<usize>
    ensures { result ≡ slice_get (parts_in parts.now number) at }
{
    parts_at(parts, number).get(at).copied()
}

// Whether a part is a type, and of a lower rank or of the same rank and root.
fn falls_to(members: &[Membership], count: usize, own: Membership, part: usize) -> bool
    ensures { result ≡ rules.falls_to members.now count own part }
{
    let other = membership_at(members, part);
    part < count && (other.rank < own.rank || (other.rank == own.rank && other.root == own.root))
}

// Whether all parts are such.
fn all_fall(members: &[Membership], count: usize, own: Membership, parts: &[usize]) -> bool
    ensures { result ≡ list_all (rules.falls_to members.now count own) parts.now }
{
    'parts: for part in parts {
        if !falls_to(members, count, own, *part) {
            return false;
        }
    }
    true
}

// Whether a part is nearer to the root.
fn is_nearer_to(members: &[Membership], own: Membership, part: Option<usize>) -> bool
    ensures { result ≡ rules.is_nearer_to members.now own part }
{
    match part {
        None => false,
        Some(part) => {
            let other = membership_at(members, part);
            other.root == own.root && other.to_root < own.to_root
        }
    }
}

// Whether a type is its root, or has a part that is nearer to the root.
fn leads_to_root(parts: &[Items<usize>], members: &[Membership], number: usize) -> bool
    ensures { result ≡ rules.leads_to_root parts.now members.now number }
{
    let own = membership_at(members, number);
    own.root == number || is_nearer_to(members, own, part_at(parts, number, own.next))
}

// Whether a part is this type.
fn is_this(number: usize, part: Option<usize>) -> bool
    ensures { result ≡ rules.is_this number part }
{
    match part {
        None => false,
        Some(part) => part == number,
    }
}

// Whether a type is a part of one that is nearer from the root.
fn is_nearer_from(
    parts: &[Items<usize>],
    members: &[Membership],
    number: usize,
    own: Membership,
) -> bool
    ensures { result ≡ rules.is_nearer_from parts.now members.now number own }
{
    let other = membership_at(members, own.previous);
    is_this(number, part_at(parts, own.previous, own.previous_at))
        && (other.root == own.root && other.from_root < own.from_root)
}

// Whether a type is its root, or a part of one that is nearer from the root.
fn led_from_root(parts: &[Items<usize>], members: &[Membership], number: usize) -> bool
    ensures { result ≡ rules.led_from_root parts.now members.now number }
{
    let own = membership_at(members, number);
    own.root == number || is_nearer_from(parts, members, number, own)
}

// Whether what a type's membership says is so.
fn is_right_at(parts: &[Items<usize>], members: &[Membership], number: usize) -> bool
    ensures { result ≡ rules.right_at parts.now members.now number }
{
    all_fall(
        members,
        parts.len(),
        membership_at(members, number),
        parts_at(parts, number),
    ) && (leads_to_root(parts, members, number) && led_from_root(parts, members, number))
}

/// Whether what all memberships say is so.
pub fn are_right(parts: &[Items<usize>], members: &[Membership]) -> bool
    ensures { result ≡ true → rules.AreRight parts.now members.now }
{
    'numbers: for number in 0..parts.len() {
        if !is_right_at(parts, members, number) {
            return false;
        }
    }
    true
}

// Whether one of these has this rank.
fn has_rank(members: &[Membership], rank: usize, parts: &[usize]) -> bool
    ensures { result ≡ list_any (λ h. (rules.membership members.now h).rank == rank) parts.now }
{
    'parts: for part in parts {
        if membership_at(members, *part).rank == rank {
            return true;
        }
    }
    false
}

/// Whether a part has the rank of its type.
pub fn is_on_cycle(parts: &[Items<usize>], members: &[Membership], number: usize) -> bool
    ensures { result ≡ rules.on_cycle_at parts.now members.now number }
{
    has_rank(
        members,
        membership_at(members, number).rank,
        parts_at(parts, number),
    )
}
