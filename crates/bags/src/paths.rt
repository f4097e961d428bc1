// Paths.
ghost use Rattle.std.specs.Prelude.{◌≡◌, true};
ghost use Rattle.tokens.specs.Runs.{is_of};
ghost use Rattle.tokens.specs.declared.classes.Sort.TheVariants.{WordBytes};
ghost use Rattle.bags.specs.Paths.{every, is_name, is_path};

use tokens::classes::{Sort, is_of};
use tokens::runs::run_end;
use tokens::sizes::MOST_PATH_BYTES;
use words::is_reserved;

// Whether a run of word bytes is a name.
fn is_name(run: &[u8]) -> bool
    requires run_value { every (is_of WordBytes) run.now ≡ true }
    ensures { result ≡ is_name run.now }
{
    !run.is_empty() && is_of(Sort::Letters, run[0]) && !is_reserved(run)
}

// Whether bytes are a path.
pub fn is_path(path: &[u8]) -> bool
    ensures { result ≡ is_path path.now }
{
    if MOST_PATH_BYTES < path.len() {
        return false;
    }
    let mut at = 0;
    loop {
        let end = run_end(path, at, Sort::WordBytes);
        if !is_name(&path[at..end]) {
            return false;
        }
        if end == path.len() {
            return true;
        }
        if path[end] != b'.' {
            return false;
        }
        at = end + 1;
    }
}
