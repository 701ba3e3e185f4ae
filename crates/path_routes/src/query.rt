//! The parameters of a query.
ghost use Rattle.std.specs.Prelude.{◌≡◌, ◌==◌, ◌∷◌, ◌++◌, [], ℕ, List, map, IfOk};
ghost use Rattle.std.specs.List.{after_first, before_first, slice_split};
ghost use Rattle.std.specs.Str.{bytes_eq};
ghost use Rattle.percent_encoding.specs.Percent.{percent_decode};
ghost use Rattle.path_routes.specs.Queries as spec;
ghost use Rattle.path_routes.specs.declared.query.Parameter.{Parameter as AParameter};

use hk_base::{ByteList, NoMemory};
use std::alloc::Global;
use std::marker::Model;

/// A parameter of a query: its name and its value, both percent-decoded.
#[derive(Drop)]
pub struct Parameter {
    pub name: ByteList,
    pub value: ByteList,
}

/// How often a name occurs in a query.
#[derive(Clone, Copy)]
pub enum Given<'q> {
    /// The name does not occur.
    Absent,
    /// The name occurs once, with this value.
    Once(&'q [u8]),
    /// The name occurs at least twice.
    Repeated,
}

impl<'q> Given<'q> {
    /// Counts one more value.
    fn with(self, value: &'q [u8]) -> Given<'q>
        ensures { (found : List (List ℕ)) → spec.IsGiven found self.entry →
            spec.IsGiven (found ++ value.now ∷ []) result }
    {
        match self {
            Given::Absent => Given::Once(value),
            Given::Once(_) => Given::Repeated,
            Given::Repeated => Given::Repeated,
        }
    }
}

/// The parameters of a query in their order. In contracts its value is their list.
#[derive(Drop)]
pub struct Query {
    parameters: Vec<Parameter>,
}

impl Model for Query {
    ghost use Rattle.std.specs.Prelude.{List};
    ghost use Rattle.path_routes.specs.declared.query.Parameter.{Parameter};

    ghost Value = { List Parameter };

    ghost view = { λ a. a.parameters.items };
}

impl Query {
    /// Reads the query of a target. Its parameters are separated by `&`. A parameter is a name and a
    /// value separated by its first `=`, both percent-decoded. A `+` stays, and so does a `%` that is
    /// not followed by two hexadecimal digits. A parameter without `=` has an empty value.
    pub fn read(alloc: Global, query: &str) -> Result<Query, NoMemory>
        ensures { IfOk result (λ found. found ≡ spec.parameters query.now) }
    {
        let pieces = pieces(alloc, query)?;
        let parameters = read_parameters(alloc, &pieces)?;
        Ok(Query { parameters })
    }

    /// Returns how often this name occurs, with its value if it occurs once.
    pub fn given(&self, name: &[u8]) -> Given<'_>
        ensures { spec.IsGiven (spec.values name.now self.now) result }
    {
        given_in(&self.parameters, name)
    }

    /// Returns the parameters in their order.
    pub fn as_slice(&self) -> &[Parameter]
        ensures { result.now ≡ self.now }
    {
        self.parameters.as_slice()
    }
}

/// Splits a query at each `&`.
fn pieces<'q>(alloc: Global, query: &'q str) -> Result<Vec<&'q str>, NoMemory>
    ensures { IfOk result
        (λ pieces. map (λ piece. piece.now) pieces.items ≡
        slice_split spec.is_ampersand query.now) }
{
    let pieces = query.split('&').collect(alloc)?;
    Ok(pieces)
}

fn read_parameters(alloc: Global, pieces: &Vec<&str>) -> Result<Vec<Parameter>, NoMemory>
    ensures { IfOk result
        (λ found. found.items ≡ map (λ piece. spec.parameter piece.now) pieces.now.items) }
{
    let mut parameters = Vec::with_capacity(alloc, pieces.len())?;
    'pieces: for piece in pieces {
        let parameter = read_parameter(alloc, piece)?;
        parameters.push(parameter)?;
    }
    Ok(parameters)
}

fn read_parameter(alloc: Global, piece: &str) -> Result<Parameter, NoMemory>
    ensures { IfOk result (λ found. found ≡ spec.parameter piece.now) }
{
    let name = decoded(alloc, name_of(piece).as_bytes())?;
    let value = decoded(alloc, value_of(piece).as_bytes())?;
    Ok(Parameter { name, value })
}

fn name_of(piece: &str) -> &str
    ensures { result.now ≡ before_first spec.is_equals_sign piece.now }
{
    match piece.split_once('=') {
        Some((name, _)) => name,
        None => piece,
    }
}

fn value_of(piece: &str) -> &str
    ensures { result.now ≡ after_first spec.is_equals_sign piece.now }
{
    match piece.split_once('=') {
        Some((_, value)) => value,
        None => "",
    }
}

/// Replaces each escape `%XX` by its byte. Any other `%` stays.
pub fn decoded(alloc: Global, bytes: &[u8]) -> Result<ByteList, NoMemory>
    ensures { IfOk result (λ found. found ≡ percent_decode bytes.now) }
{
    let mut out = Vec::new(alloc);
    percent_encoding::percent_decode(bytes).append_to(&mut out)?;
    Ok(ByteList::of(out))
}

/// Counts one more parameter if it has this name.
fn after<'q>(found: Given<'q>, name: &[u8], parameter: &'q Parameter) -> Given<'q>
    ensures { (ps : List AParameter) → spec.IsGiven (spec.values name.now ps) found.entry →
        spec.IsGiven (spec.values name.now (ps ++ parameter.now ∷ [])) result }
{
    let named = parameter.name.as_slice() == name;
    if named {
        return found.with(parameter.value.as_slice());
    }
    found
}

fn given_in<'q>(parameters: &'q Vec<Parameter>, name: &[u8]) -> Given<'q>
    ensures { spec.IsGiven (spec.values name.now parameters.now.items) result }
{
    let mut found = Given::Absent;
    'parameters: for parameter in parameters {
        found = after(found, name, parameter);
    }
    found
}
