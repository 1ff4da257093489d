//! Whether two rows are on in one set at one address.
ghost use Rattle.std.specs.Prelude.{◌≡◌, ◌≤◌, [], length};
ghost use Rattle.layers.specs.Sets.{set_of, some_set, together};
ghost use Rattle.sheet.specs.Collisions.{collide, hit, clash};

use layers::Member;
use message::Row;

// The set that an ID is in, if it is in one: 0 is none. Not `layers::Members`, nor a search: both need members that rise, and no clause
// says so before the last test; and `is_rival` there leaves out a row of the same pair, which `collide` does not.
fn set_of(members: &[Member], id: [u8; 5]) -> Option<u8>
    ensures { result ≡ some_set (set_of members.now id) }
{
    let member = members.iter().find(|member| id == member.id)?;
    (member.set > 0).then_some(member.set)
}

// Whether two IDs are in one set.
fn share_a_set(members: &[Member], one: [u8; 5], other: [u8; 5]) -> bool
    ensures { result ≡ together members.now one other }
{
    set_of(members, one).is_some_and(|set| set_of(members, other) == Some(set))
}

fn collide(members: &[Member], a: Row, b: Row) -> bool
    ensures { result ≡ collide members.now a b }
{
    (a.on && b.on) && (a.address == b.address && share_a_set(members, a.id, b.id))
}

fn hit(members: &[Member], row: Row, rows: &[Row]) -> bool
    ensures { result ≡ hit members.now row rows.now }
{
    rows.iter().any(|other| collide(members, row, *other))
}

// The first word of the first row that collides with an earlier one; the rows begin at the fourth word.
// A loop: of `find_map` in its place, `search` did not prove `returns`, and the library has no lemma on what it finds in a list.
pub(crate) fn clash(members: &[Member], rows: &[Row]) -> Option<usize>
    requires { length rows.now ≤ 64 }
    ensures { result ≡ clash members.now 3 [] rows.now }
{
    for (k, row) in rows.iter().enumerate() {
        if hit(members, *row, &rows[..k]) {
            return Some(3 + 2 * k);
        }
    }
    None
}
