//! The joining of spans in order of place: each is joined with the run of its row that is still open, and is a new run
//! where there is none.

ghost use Rattle.std.specs.Prelude.{◌≡◌, ◌+◌, ◌<◌, ◌≤◌, ◌⊎◌, ℕ, true, false, length, take, map, get_or, Contains, IfSome, IfNone};
ghost use Rattle.rs_facts.specs.declared.fact.Span.{Span as a_span};
ghost use Rattle.rs_facts.specs.Spans.{seen, gap_of, places_of, ArePlaced};
ghost use Rattle.rs_coalesce.specs.Joined.{joins, AreJoined, BeginInTurn};

use crate::join::{is_joined, reaches};
use arrayvec::ArrayVec;
use rs_facts::Span;
use rs_value::Kind;

/// How many runs are kept open at a time.
const OPEN: usize = 16;

/// Places of runs that a later span may be one with.
type Open = ArrayVec<usize, OPEN>;

/// Joins spans that begin in turn, as far as they are one run, and answers whether all were joined that are one run. Not
/// all may be where more than 16 runs are open at a time; what the spans mean stays also then.
pub fn join_in_turn(kind: Kind, spans: &mut Vec<Span>) -> bool
    requires placed { ArePlaced kind (map seen spans.old.items) }
    requires turn { BeginInTurn spans.old.items }
    ensures placed { ArePlaced kind (map seen spans.new.items) }
    ensures same { places_of (map seen spans.new.items) ≡ places_of (map seen spans.old.items) }
    ensures joined { result ≡ true → AreJoined kind (map seen spans.new.items) }
{
    let (left, are_all) = join_each(kind, spans.as_mut_slice());
    spans.truncate(left);
    are_all
}

/// Joins the spans in place, and says how many are left and whether all were joined; elements past those left are
/// unspecified.
fn join_each(kind: Kind, spans: &mut [Span]) -> (usize, bool)
    requires placed { ArePlaced kind (map seen spans.old) }
    requires turn { BeginInTurn spans.old }
    ensures placed { ArePlaced kind (map seen (take result.0 spans.new)) }
    ensures same { places_of (map seen (take result.0 spans.new)) ≡ places_of (map seen spans.old) }
    ensures joined { result.1 ≡ true → AreJoined kind (map seen (take result.0 spans.new)) }
{
    let mut opened = Open::new();
    let mut are_all = true;
    let mut made = 0;
    for next in 0..spans.len() {
        match open_run(kind, spans, opened.as_slice(), next) {
            Some(at) => {
                let hi = spans[at].hi.max(spans[next].hi);
                spans[at].hi = hi;
            }
            None => {
                are_all = are_all && make_room(kind, spans, &mut opened, next);
                if are_all {
                    opened.push(made);
                }
                spans.swap(made, next);
                made += 1;
            }
        }
    }
    (made, are_all)
}

/// The place of an open run that the next span is one with.
fn open_run(kind: Kind, spans: &[Span], opened: &[usize], next: usize) -> Option<usize>
    requires within { (i : ℕ) → Contains opened.now i → i < length spans.now }
    requires inside { next < length spans.now }
    ensures found { IfSome result (λ at. Contains opened.now at
        × ((d : a_span) → joins kind (seen (get_or spans.now at d)) (seen (get_or spans.now next d)) ≡ true)) }
    ensures none { IfNone result ((i : ℕ) (d : a_span) → Contains opened.now i
        → joins kind (seen (get_or spans.now i d)) (seen (get_or spans.now next d)) ≡ false) }
{
    let mut place = opened.len();
    while place > 0 {
        place -= 1;
        let at = opened[place];
        if is_joined(kind, &spans[at], &spans[next]) {
            return Some(at);
        }
    }
    None
}

/// Sees to it that one run more can be open: those are closed that end before the next span, so that few are looked at, and
/// where as many are left as can be, all. Answers whether none was closed that a later span may be one with.
fn make_room(kind: Kind, spans: &[Span], opened: &mut Open, next: usize) -> bool
    requires within { (i : ℕ) → Contains opened.old.items i → i < length spans.now }
    requires inside { next < length spans.now }
    ensures room { length opened.new.items < 16 }
    ensures kept { (i : ℕ) → Contains opened.new.items i → Contains opened.old.items i }
    ensures closed { result ≡ true → (i : ℕ) → Contains opened.old.items i → Contains opened.new.items i
        ⊎ ((d : a_span) → (get_or spans.now i d).hi + gap_of kind ≤ (get_or spans.now next d).lo) }
{
    close(kind, spans, opened, spans[next].lo);
    if !opened.is_full() {
        return true;
    }
    opened.clear();
    false
}

/// Closes the runs that end before a span that begins at `lo`.
fn close(kind: Kind, spans: &[Span], opened: &mut Open, lo: u32)
    requires { (i : ℕ) → Contains opened.old.items i → i < length spans.now }
    ensures kept { (i : ℕ) → Contains opened.new.items i → Contains opened.old.items i }
    ensures closed { (i : ℕ) → Contains opened.old.items i → Contains opened.new.items i
        ⊎ ((d : a_span) → (get_or spans.now i d).hi + gap_of kind ≤ lo) }
{
    let mut place = 0;
    while place < opened.len() {
        if reaches(kind, spans[opened[place]].hi, lo) {
            place += 1;
        } else {
            opened.swap_remove(place);
        }
    }
}
