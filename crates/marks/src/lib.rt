// The mark of policies: a bit for each, set where it is satisfied; one policy more, the lowest bit that is set, and what is decided by marks.
#![tactic(auto)]

ghost use Rattle.std.specs.Prelude.{◌≡◌, cond, List, ◌+◌, ◌*◌, ◌^◌, ◌≤◌, ◌<◌, length};
ghost use Rattle.tokens.specs.Sizes.{most_policies};
ghost use Rattle.grammar.specs.Policies.{PolicyOf};
ghost use Rattle.placing.specs.Said.{Word};
ghost use Rattle.meaning.specs.Targets.{Request};
ghost use Rattle.meaning.specs.Decisions.{Terms, by_numbers, policies_decide, mark_of};
ghost use Rattle.marks.specs.Marks.{lowest_of, permits_of};

use meaning::Decision;

// The decision by the lowest-numbered satisfied forbid and permit, 0 where there is none.
pub fn by_numbers(forbid: usize, permit: usize) -> Decision
    ensures { result ≡ by_numbers forbid permit }
{
    if 0 < forbid {
        Decision::Forbidden(forbid)
    } else if 0 < permit {
        Decision::Allowed(permit)
    } else {
        Decision::Nothing
    }
}

// The mark with one policy more, which stands before those that are met: their bits are shifted by one, and its own is the lowest.
pub fn mark_with(hit: bool, mark: u64) -> u64
    requires { cond hit 1 0 + 2 * mark < 2 ^ most_policies }
    ensures { result ≡ cond hit 1 0 + 2 * mark }
{
    (mark << 1) | u64::from(hit)
}

// The number of a mark's lowest bit that is set, from 1 on; 0 where none is.
pub fn lowest(mark: u64) -> usize
    ensures { result ≡ lowest_of mark }
{
    if mark == 0 {
        0
    } else {
        mark.trailing_zeros() as usize + 1
    }
}

// The decision by the marks of the satisfied policies and of the permits: the lowest-numbered satisfied forbid decides, else the lowest-numbered satisfied
// permit.
pub fn by_marks(mark: u64, permits: u64) -> Decision
    ensures { (terms : Terms) (q : Request) (ps : List (PolicyOf Word)) → length ps ≤ most_policies → mark ≡ mark_of terms q ps
        → permits ≡ permits_of ps → result ≡ policies_decide terms q ps }
{
    let allowing = mark & permits;
    let forbidding = mark - allowing;
    let forbid = lowest(forbidding);
    let permit = lowest(allowing);
    by_numbers(forbid, permit)
}
