// Deciding: what the policies of a table decide over a row, and the public call, which decides a request over a bag.
#![tactic(auto)]

pub mod row;

ghost use Rattle.std.specs.Prelude.{◌≡◌, ◌≤◌, length};
ghost use Rattle.bags.specs.Sections.{Sectioned};
ghost use Rattle.bags.specs.Sizes.{most_bag_bytes};
ghost use Rattle.views.specs.Meaning.{look};
ghost use Rattle.views.specs.Values.{base_bag};
ghost use Rattle.targets.specs.Matching.{request, TypesOf};
ghost use Rattle.deciding.specs.Answers.{decide_answer, held_decide};

use crate::row::decision;
use bags::sections::{Sections, bag_sections};
use compiling::held_policies;
use meaning::{Decision, Marked};
use targets::Types;
use targets::forms::{is_action, is_system, resource_type, subject_type};

// What is decided over the bag's sections, where the table holds the text.
fn held(
    text: &[u8],
    table: &[u8],
    bag: &[u8],
    p: Sections,
    subject: &[u8],
    action: &[u8],
    resource: &[u8],
    types: Types,
) -> Result<Marked, u8>
    requires sectioned { Sectioned bag.now p × (length bag.now ≤ most_bag_bytes) }
    requires types_of { TypesOf types subject.now resource.now }
    ensures { result ≡ held_decide text.now table.now (look (base_bag bag.now p))
        (request subject.now action.now resource.now) }
{
    let size = held_policies(text, table).ok_or(20)?;
    Ok(decision(
        text,
        table,
        size.entries,
        bag,
        p,
        subject,
        action,
        resource,
        types,
    ))
}

// Decides a request over a bag, by the policies of a text whose table is lent. The system is let in first, with nothing else looked at.
pub fn decide(
    text: &[u8],
    table: &[u8],
    bag: &[u8],
    subject: &[u8],
    action: &[u8],
    resource: &[u8],
) -> Result<Marked, u8>
    ensures { result ≡ decide_answer text.now table.now bag.now
        (request subject.now action.now resource.now) }
{
    if is_system(subject) {
        return Ok(Marked {
            d: Decision::System,
            mark: 0,
        });
    }
    let subject_type = subject_type(subject);
    if subject_type == 0 {
        return Err(21);
    }
    if !is_action(action) {
        return Err(22);
    }
    let resource_type = resource_type(resource);
    if resource_type == 0 {
        return Err(23);
    }
    let types = Types {
        subject: subject_type,
        resource: resource_type,
    };
    let p = bag_sections(bag).ok_or(24)?;
    held(text, table, bag, p, subject, action, resource, types)
}
