//! The parameters that a route takes of a path, each decoded once.
ghost use Rattle.std.specs.Prelude.{◌≡◌, ◌≤◌, length, option_map, vec_capacity};
ghost use Rattle.percent_encoding.specs.Percent.{percent_decode};
ghost use Rattle.http_text.specs.Parameters.{IsTaken, parts_of};
ghost use Rattle.http_text.specs.Path.{parameter, sender_in_path, plain_number_in_path, transmission_number_in_path, file_number_in_path, segment_in_path, reporter_in_path, return_number_in_path, pool_number_in_path, work_number_in_path, account_in_path};

use crate::limits::MAX_HEAD;
use crate::number_text::{number_spelled, segment_named};
use matchit::Params;
use percent_encoding::percent_decode;
use std::alloc::{AllocError, Global};
use work_ids::{
    Account, PoolNumber, Reporter, ReturnNumber, Segment, SenderKey, TransmissionNumber,
    WorkNumber, read_file_name,
};

/// Room in which one parameter of a path is decoded at a time: a path is no longer than a head.
#[derive(Drop)]
pub struct Scratch {
    bytes: Vec<u8>,
    ghost roomy: { 8192 ≤ vec_capacity bytes },
}

impl Scratch {
    ghost use Rattle.std.specs.Prelude.{◌≡◌, [], IfOk};

    /// With nothing in it yet.
    pub fn new(alloc: Global) -> Result<Scratch, AllocError>
        ensures { IfOk result (λ scratch. scratch.bytes.items ≡ []) }
    {
        let bytes = Vec::with_capacity(alloc, MAX_HEAD)?;
        Ok(Scratch { bytes })
    }
}

// Decodes a parameter.
fn decode(scratch: &mut Vec<u8>, raw: &[u8])
    requires { length raw.now ≤ vec_capacity scratch.old }
    ensures value { scratch.new.items ≡ percent_decode raw.now }
    ensures room { vec_capacity scratch.old ≤ vec_capacity scratch.new }
{
    scratch.clear();
    for byte in percent_decode(raw) {
        scratch.push(byte).unwrap();
    }
}

// The parameter of this name, decoded into the scratch, if there is one.
fn take_parameter<'a>(
    scratch: &'a mut Scratch,
    params: &Params<'_, '_>,
    name: &str,
) -> Option<&'a [u8]>
    requires { IsTaken params.now }
    ensures value { option_map (λ bytes. bytes.now) result ≡ parameter name.now (parts_of params.now) }
{
    let raw = params.get(name)?;
    decode(&mut scratch.bytes, raw.as_bytes());
    Some(scratch.bytes.as_slice())
}

/// The sender in the parameters.
pub(crate) fn sender_in_path(scratch: &mut Scratch, params: &Params<'_, '_>) -> Option<SenderKey>
    requires { IsTaken params.now }
    ensures value { result ≡ sender_in_path (parts_of params.now) }
{
    SenderKey::from_bytes(take_parameter(scratch, params, "sender")?).ok()
}

/// The plain number of a transmission in the parameters.
pub(crate) fn plain_number_in_path(
    scratch: &mut Scratch,
    params: &Params<'_, '_>,
) -> Option<TransmissionNumber>
    requires { IsTaken params.now }
    ensures value { result ≡ plain_number_in_path (parts_of params.now) }
{
    TransmissionNumber::from_text(take_parameter(scratch, params, "n")?)
}

/// The number of a transmission in the parameters, plain or of a year.
pub(crate) fn number_in_path(
    scratch: &mut Scratch,
    params: &Params<'_, '_>,
) -> Option<TransmissionNumber>
    requires { IsTaken params.now }
    ensures value { result ≡ transmission_number_in_path (parts_of params.now) }
{
    number_spelled(take_parameter(scratch, params, "n")?)
}

/// The number in the name of a file in the parameters, which is sent to this society.
pub(crate) fn file_number_in_path(
    society: u16,
    scratch: &mut Scratch,
    params: &Params<'_, '_>,
) -> Option<TransmissionNumber>
    requires { IsTaken params.now }
    ensures value { result ≡ file_number_in_path society (parts_of params.now) }
{
    read_file_name(take_parameter(scratch, params, "name")?, society)
}

/// The segment of a sender's numbers in the parameters.
pub(crate) fn segment_in_path(scratch: &mut Scratch, params: &Params<'_, '_>) -> Option<Segment>
    requires { IsTaken params.now }
    ensures value { result ≡ segment_in_path (parts_of params.now) }
{
    segment_named(take_parameter(scratch, params, "segment")?)
}

/// The reporter in the parameters.
pub(crate) fn reporter_in_path(scratch: &mut Scratch, params: &Params<'_, '_>) -> Option<Reporter>
    requires { IsTaken params.now }
    ensures value { result ≡ reporter_in_path (parts_of params.now) }
{
    Reporter::from_bytes(take_parameter(scratch, params, "reporter")?).ok()
}

/// The number of a return in the parameters.
pub(crate) fn return_number_in_path(
    scratch: &mut Scratch,
    params: &Params<'_, '_>,
) -> Option<ReturnNumber>
    requires { IsTaken params.now }
    ensures value { result ≡ return_number_in_path (parts_of params.now) }
{
    ReturnNumber::from_text(take_parameter(scratch, params, "n")?)
}

/// The number of a pool in the parameters.
pub(crate) fn pool_in_path(scratch: &mut Scratch, params: &Params<'_, '_>) -> Option<PoolNumber>
    requires { IsTaken params.now }
    ensures value { result ≡ pool_number_in_path (parts_of params.now) }
{
    PoolNumber::from_text(take_parameter(scratch, params, "pool")?)
}

/// The work number in the parameters.
pub(crate) fn work_in_path(scratch: &mut Scratch, params: &Params<'_, '_>) -> Option<WorkNumber>
    requires { IsTaken params.now }
    ensures value { result ≡ work_number_in_path (parts_of params.now) }
{
    WorkNumber::from_bytes(take_parameter(scratch, params, "work")?).ok()
}

/// The account in the parameters.
pub(crate) fn account_in_path(scratch: &mut Scratch, params: &Params<'_, '_>) -> Option<Account>
    requires { IsTaken params.now }
    ensures value { result ≡ account_in_path (parts_of params.now) }
{
    Account::from_bytes(take_parameter(scratch, params, "account")?).ok()
}
