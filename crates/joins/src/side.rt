// The new contents of a string reference.
ghost use Rattle.std.specs.Prelude.{◌≡◌, ℕ, ◌≤◌, length};
ghost use Rattle.stores.specs.Names.{under};
ghost use Rattle.joins.specs.Renewed.{contents_around, renew_answer, renewed_in, Within};
ghost use Rattle.joins.specs.Pieces.{kept_front, kept_back};

use crate::join::join;
use crate::joined::Joined;
use crate::refusal::JoinRefusal;
use changes::success::Success;
use patterns::strings::Strings;
use symbols::kind::Kind;
use tables::listing::Listing;
use tables::row::RightSide;

// How many symbols before the start stay; none without pattern.
fn front_kept<T: Copy>(success: Success<T>) -> usize
    ensures value { result ≡ kept_front success.entry.items.now success.entry.start }
    ensures within { result ≤ length success.entry.subject.now }
{
    if success.items.is_empty() {
        return 0;
    }
    success.start
}

// From where on the symbols behind the last end stay; none without pattern.
fn back_kept<T: Copy>(success: Success<T>) -> usize
    ensures value { result ≡ kept_back success.entry.subject.now success.entry.items.now success.entry.start success.entry.ends.now }
    ensures within { result ≤ length success.entry.subject.now }
{
    if success.items.is_empty() {
        return success.subject.len();
    }
    success.ends[success.items.len() - 1]
}

// The new contents of the string reference, written to the front of an area while they fit; the operands are joined under the strings that can be read.
pub fn renew<K: Kind, R: Strings<Symbol = K::Symbol>>(
    listing: Listing<K>,
    strings: &R,
    success: Success<K::Symbol>,
    side: &RightSide,
    area: &mut [K::Symbol],
    scratch: &mut [K::Symbol],
) -> Result<usize, JoinRefusal>
    requires { (k : ℕ) → length (under (R.Strings.names strings.now) k) ≤ length scratch.old }
    ensures value { renewed_in result area.new ≡ renew_answer (length area.old) (contents_around K.Kind.chars listing.entry.names.now listing.entry.constants.now (R.Strings.names strings.now) success.entry.subject.now success.entry.items.now success.entry.start success.entry.ends.now side.now) }
    ensures within { Within result area.new }
{
    let end = success.subject.len();
    let front = front_kept(success);
    let back = back_kept(success);
    let mut joined = Joined { area, at: Some(0) };
    joined.append(&success.subject[0..front]);
    join(listing, strings, side.operands(), &mut joined, scratch)?;
    joined.append(&success.subject[back..end]);
    joined.at.ok_or(JoinRefusal::TooLong)
}
