//! Locals, and the code of functions.

ghost use Rattle.std.specs.Prelude.{◌≡◌, ◌++◌, OnOk, IfOk};
ghost use Rattle.wasm_writer.specs.Written.{groups_of, group_bytes, body_bytes, code_bytes};

use crate::code::write_expression;
use crate::rules::{Form, sized, vector, write_size};
use crate::types::write_value_type;
use gate_base::{Members, Octets, OutOfMemory};
use std::alloc::Global;
use wasm_syntax::{Code, LocalList, ValueType};

/// Neighbouring locals of one type.
#[derive(Clone, Copy, PartialEq, Eq)]
pub(crate) struct Group {
    /// How many there are.
    pub(crate) count: u32,
    /// Their type.
    pub(crate) of: ValueType,
}

/// The groups of a function's locals.
fn groups_in(alloc: Global, locals: &LocalList) -> Result<Members<Group>, OutOfMemory>
    ensures { IfOk result (λ gs. gs ≡ groups_of locals.now) }
{
    let mut groups = Members::new(alloc);
    if locals.len() == 0 {
        return Ok(groups);
    }
    let (mut count, mut of) = locals.run(0);
    let mut at = count;
    while at < locals.len() {
        let (n, t) = locals.run(at);
        if t == of {
            count += n;
        } else {
            groups.push(Group { count, of })?;
            count = n;
            of = t;
        }
        at += n;
    }
    groups.push(Group { count, of })?;
    Ok(groups)
}

/// A group of locals.
struct LocalGroups;

impl Form<Group> for LocalGroups {
    ghost bytes = { group_bytes };

    fn write(_alloc: Global, out: &mut Octets, x: &Group) -> Result<(), OutOfMemory> {
        write_size(out, x.count as usize)?;
        write_value_type(out, x.of)
    }
}

/// Puts the locals and the instructions of a function at the end.
#[tactic(auto, unfolding(crate::specs::Written::body_bytes))]
fn write_body(alloc: Global, out: &mut Octets, code: &Code) -> Result<(), OutOfMemory>
    ensures { OnOk result (out.new ≡ out.old ++ body_bytes code.now) }
{
    let groups = groups_in(alloc, &code.locals)?;
    vector::<Group, LocalGroups>(alloc, out, &groups)?;
    write_expression(alloc, out, &code.body)
}

/// The code of a function.
pub(crate) struct Codes;

impl Form<Code> for Codes {
    ghost bytes = { code_bytes };

    fn write(alloc: Global, out: &mut Octets, x: &Code) -> Result<(), OutOfMemory> {
        let mut body = Octets::new(alloc);
        write_body(alloc, &mut body, x)?;
        sized(out, body.as_slice())
    }
}
