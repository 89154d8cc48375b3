// What the parameters of a call are.
ghost use Rattle.std.specs.Prelude.{◌≡◌, ◌≤◌, [], Some, IfErr, IfOk, drop, length, option_copied};
ghost use Rattle.std.specs.Option.{option_map};
ghost use Rattle.py_value.specs.Maps.{look_up};
ghost use Rattle.py_value.specs.View.{data_of, all_of};
ghost use Rattle.py_value.specs.Elements.{argument, default_of, params_after, params_of_call};
ghost use Rattle.ui_elements.specs.Calls.{arguments_of, parameter_of, parameters_of, preset_of, words_of};
ghost use Rattle.ui_elements.specs.MemoryOrNone.{IsMemoryOrNone};

use crate::args::{Args, Word};
use crate::parameters::{Parameter, Preset};
use crate::params::{param, set_param};
use crate::words::are_words_of;
use py_value::{OpFault, Pairs, Text, Value, copy};
use std::alloc::Global;

/// The parameters of a call. `WrongType` where its arguments don't fit them.
#[tactic(auto, using(crate::proofs::Fills::givens))]
pub fn params_of_call(
    alloc: Global,
    parameters: &[Parameter],
    args: &Args,
) -> Result<Pairs, OpFault>
    ensures ok { IfOk result
        (λ params. params_of_call (parameters_of parameters.now) (arguments_of args.now) ≡ Some params) }
    ensures fault { IfErr result
        (λ f. IsMemoryOrNone f (params_of_call (parameters_of parameters.now) (arguments_of args.now))) }
{
    let places = args.places.items();
    let words = args.words.items();
    if places.len() > parameters.len() {
        return Err(OpFault::WrongType);
    }
    if !are_words_of(words, &parameters[places.len()..]) {
        return Err(OpFault::WrongType);
    }
    params_after(alloc, parameters, places, words)
}

// What each parameter is, behind those before it.
#[tactic(auto, using(crate::proofs::Fills::fills))]
fn params_after(
    alloc: Global,
    parameters: &[Parameter],
    places: &[Value],
    words: &[Word],
) -> Result<Pairs, OpFault>
    requires { length places.now ≤ length parameters.now }
    ensures ok { IfOk result
        (λ params. params_after (parameters_of parameters.now) (all_of places.now) (words_of words.now) []
        ≡ Some params) }
    ensures fault { IfErr result
        (λ f. IsMemoryOrNone f
        (params_after (parameters_of parameters.now) (all_of places.now) (words_of words.now) [])) }
{
    let mut params = Pairs::new(alloc);
    for (at, parameter) in parameters.iter().enumerate() {
        let value = argument(alloc, parameter, at, places, words, &params)?;
        set_param(alloc, &mut params, parameter.name, value)?;
    }
    Ok(params)
}

// What the parameter at a place is: the argument at its place, else the one of its name, else its default.
#[tactic(auto, using(crate::proofs::Fills::arguments))]
fn argument(
    alloc: Global,
    parameter: &Parameter,
    at: usize,
    places: &[Value],
    words: &[Word],
    earlier: &Pairs,
) -> Result<Value, OpFault>
    ensures ok { IfOk result
        (λ v. argument (parameter_of parameter.now) (all_of (drop at places.now))
        (words_of words.now) earlier.now ≡ Some (data_of v)) }
    ensures fault { IfErr result
        (λ f. IsMemoryOrNone f
        (argument (parameter_of parameter.now) (all_of (drop at places.now))
        (words_of words.now) earlier.now)) }
{
    if at < places.len() {
        return Ok(copy(alloc, &places[at])?);
    }
    match word(words, parameter.name) {
        Some(value) => Ok(copy(alloc, value)?),
        None => default_value(alloc, &parameter.preset, earlier),
    }
}

// The first argument of a name.
#[tactic(auto, using(crate::proofs::Fills::words))]
fn word<'a>(words: &'a [Word], name: &str) -> Option<&'a Value>
    ensures { option_map data_of (option_copied result) ≡ look_up name.now (words_of words.now) }
{
    for word in words {
        if word.name.items() == name {
            return Some(&word.value);
        }
    }
    None
}

// What a parameter is where no argument is given for it.
fn default_value(alloc: Global, preset: &Preset, earlier: &Pairs) -> Result<Value, OpFault>
    ensures ok { IfOk result
        (λ v. default_of (preset_of preset.now) earlier.now ≡ Some (data_of v)) }
    ensures fault { IfErr result
        (λ f. IsMemoryOrNone f (default_of (preset_of preset.now) earlier.now)) }
{
    match preset {
        Preset::Wanted => Err(OpFault::WrongType),
        Preset::Number(n) => Ok(Value::Int(*n)),
        Preset::EmptyText => Ok(Value::Text(Text::new(alloc))),
        Preset::Same(name) => match param(earlier, name) {
            Some(value) => Ok(copy(alloc, value)?),
            None => Err(OpFault::WrongType),
        },
    }
}
