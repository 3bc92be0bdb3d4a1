//! The arguments of a call, looked up by the names of the parameters.

ghost use Rattle.std.specs.Prelude.{◌≡◌, map, IfOk};
ghost use Rattle.homeo_meaning.specs.Context.{arguments_of};
ghost use Rattle.homeo_meaning.specs.Meaning.{argument_or};

use homeo_syntax::{Memory, Number, RangeDecl};
use std::alloc::Global;

/// A parameter's name, and its value in a call.
#[derive(Clone, Copy)]
pub struct Argument {
    pub name: u32,
    pub value: i64,
}

/// Gives each parameter its argument, as far as there are both.
///
/// # Errors
///
/// `Memory` where memory is wanting.
pub fn bind(alloc: Global, params: &[RangeDecl], values: &[i64]) -> Result<Vec<Argument>, Memory>
    ensures { IfOk result (λ bound.
        arguments_of (map (λ a. a.name) bound.items) (map (λ a. a.value) bound.items) ≡
        arguments_of (map (λ p. p.name.name) params.now) values.now) }
{
    let count = params.len().min(values.len());
    let mut bound = Vec::new(alloc);
    for index in 0..count {
        bound.push(Argument {
            name: params[index].name.name,
            value: values[index],
        })?;
    }
    Ok(bound)
}

/// The argument of the parameter of a name, if there is one.
pub fn argument_of(arguments: &[Argument], name: u32) -> Option<i64>
    ensures { result ≡ arguments_of (map (λ a. a.name) arguments.now) (map (λ a. a.value) arguments.now) name }
{
    for argument in arguments {
        if argument.name == name {
            return Some(argument.value);
        }
    }
    None
}

/// The argument of the parameter of a name, or the other value where no parameter has the name.
pub fn argument_or(arguments: &[Argument], name: u32, other: i64) -> i64
    ensures { result ≡ argument_or (arguments_of (map (λ a. a.name) arguments.now)
        (map (λ a. a.value) arguments.now) name) other }
{
    match argument_of(arguments, name) {
        Some(value) => value,
        None => other,
    }
}

/// The values of a call's arguments.
///
/// # Errors
///
/// `Memory` where memory is wanting.
pub fn argument_values(alloc: Global, args: &[Number]) -> Result<Vec<i64>, Memory>
    ensures { IfOk result (λ values. values.items ≡ map (λ a. a.value) args.now) }
{
    let mut values = Vec::new(alloc);
    for arg in args {
        values.push(arg.value)?;
    }
    Ok(values)
}
