// The reader of locks: vocabulary, tests, action list and resource are read, and the permit that they say is measured.
#![tactic(auto)]

pub mod actions;
pub mod tests;
pub mod vocabulary;

ghost use Rattle.std.specs.Prelude.{◌≡◌};
ghost use Rattle.locks.specs.Answers.{read_of, size_for};

use actions::{actions_size, is_string};
use tests::tests_size;
use vocabulary::is_vocabulary;

// The bytes of a permit that stand in each: all but its actions, its resource and its tests.
const FRAME: usize = 58;

// The permit's length.
pub fn permit_size(vocabulary: &[u8], lock: &[u8], actions: &[u8], resource: &[u8]) -> Option<usize>
    ensures { result ≡ size_for resource.now
        (read_of vocabulary.now lock.now actions.now resource.now) }
{
    if !is_vocabulary(vocabulary) {
        return None;
    }
    if !is_string(resource) {
        return None;
    }
    let a = actions_size(actions)?;
    let t = tests_size(vocabulary, lock)?;
    Some(FRAME + resource.len() + a + t)
}
