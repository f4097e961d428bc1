// The forms of subjects, actions and resources.
ghost use Rattle.std.specs.Prelude.{◌≡◌, cond, length};
ghost use Rattle.grammar.specs.Rules.{principal_types, resource_types};
ghost use Rattle.parts.specs.Names.{types_of};
ghost use Rattle.meaning.specs.Targets.{before_colon, type_in, is_typed, is_system, is_action};

use heads::type_number;
use slices::same;

// How many bytes subject, action and resource may have.
pub const MOST_REQUEST_BYTES: usize = 100;

// Whether the subject is the system.
pub fn is_system(s: &[u8]) -> bool
    ensures { result ≡ is_system s.now }
{
    same(s, b"system")
}

// Whether this is an action: at least one byte, and no more than it may have.
pub fn is_action(s: &[u8]) -> bool
    ensures { result ≡ is_action s.now }
{
    (s.len() <= MOST_REQUEST_BYTES) & (0 < s.len())
}

// Where the type ends: how many bytes stand before the first colon; all, where there is none.
fn type_end(s: &[u8]) -> usize
    ensures { result ≡ length (before_colon s.now) }
{
    s.iter().position(|b| *b == b':').unwrap_or(s.len())
}

// The number of the type of a subject, or of a resource; 0 where s is none.
fn typed(resource: bool, s: &[u8]) -> usize
    ensures { result ≡ cond (is_typed (types_of resource) s.now) (type_in (types_of resource) s.now) 0 }
{
    if MOST_REQUEST_BYTES < s.len() {
        return 0;
    }
    let colon = type_end(s);
    if s.len() <= colon + 1 {
        return 0;
    }
    type_number(resource, &s[0..colon])
}

// The number of a subject's type among the principal types; 0 where s is no subject, or the system.
pub fn subject_type(s: &[u8]) -> usize
    ensures { result ≡ cond (is_typed principal_types s.now) (type_in principal_types s.now) 0 }
{
    typed(false, s)
}

// The number of a resource's type among the resource types; 0 where s is no resource.
pub fn resource_type(s: &[u8]) -> usize
    ensures { result ≡ cond (is_typed resource_types s.now) (type_in resource_types s.now) 0 }
{
    typed(true, s)
}
