ghost use Rattle.std.specs.Prelude.{◌≡◌, [], nat_eq, find, true, IfOk};
ghost use Rattle.std.specs.Option.{option_copied, unwrap_or};
ghost use Rattle.gt_model.specs.Machine.{is_live, is_live_as, is_transaction, is_job, is_ready_job, is_ready_work, pin_of, work_of, free_number, released, working, stepped, with_work, reading};
ghost use Rattle.gt_plain_machine.specs.States.{as_state};

use crate::{PlainPin, PlainPins, PlainState, PlainWork};
use gt_list::{ListOf, NoMemory};
use gt_model::Job;
use std::alloc::Global;

/// Whether a number is live.
pub(crate) fn is_live(pins: &[PlainPin], number: u8) -> bool
    ensures { result ≡ is_live pins.now number }
{
    pins.iter().any(|pin| pin.number() == number)
}

pub(crate) fn is_live_transaction(pins: &[PlainPin], number: u8) -> bool
    ensures { result ≡ is_live_as is_transaction pins.now number }
{
    pins.iter()
        .any(|pin| pin.number() == number && pin.work().is_none())
}

pub(crate) fn is_live_job(pins: &[PlainPin], number: u8) -> bool
    ensures { result ≡ is_live_as is_job pins.now number }
{
    pins.iter()
        .any(|pin| pin.number() == number && pin.work().is_some())
}

pub(crate) fn is_live_ready_job(pins: &[PlainPin], number: u8) -> bool
    ensures { result ≡ is_live_as is_ready_job pins.now number }
{
    pins.iter()
        .any(|pin| pin.number() == number && is_ready_job(pin))
}

/// Whether it is a job whose file is ended.
pub(crate) fn is_ready_job(pin: &PlainPin) -> bool
    ensures { result ≡ is_ready_job pin.now }
{
    is_ready_work(pin.work())
}

fn is_ready_work(work: Option<PlainWork>) -> bool
    ensures { result ≡ is_ready_work work }
{
    match work {
        Some(work) => work.is_ready,
        None => false,
    }
}

/// The work of a job; of a transaction one that is none.
pub(crate) fn work_of(pin: &PlainPin) -> PlainWork
    ensures { result ≡ work_of pin.now }
{
    match pin.work() {
        Some(work) => work,
        None => PlainWork {
            job: Job::Repack,
            file: 0,
            left: 0,
            is_ready: false,
        },
    }
}

fn first_of(pins: &[PlainPin], number: u8) -> Option<&PlainPin>
    ensures { option_copied result ≡ find (λ p. nat_eq p.number number) pins.now }
{
    pins.iter().find(|pin| pin.number() == number)
}

impl PlainState {
    /// What is live under a number.
    pub(crate) fn pin(&self, number: u8) -> &PlainPin
        requires { is_live (as_state self.now).pins number ≡ true }
        ensures { result.now ≡ pin_of (as_state self.now) number }
    {
        match first_of(self.pins.as_slice(), number) {
            Some(pin) => pin,
            None => unreachable!(),
        }
    }
}

/// The least number that isn't live.
pub(crate) fn free_number(pins: &[PlainPin]) -> Result<u8, NoMemory>
    ensures { IfOk result (λ n. n ≡ free_number pins.now) }
{
    let mut number = 0;
    for _pin in pins {
        if !is_live(pins, number) {
            return Ok(number);
        }
        match number.checked_add(1) {
            Some(next) => number = next,
            None => return Err(NoMemory),
        }
    }
    Ok(number)
}

/// Without the one of this number.
pub(crate) fn released(alloc: Global, pins: &[PlainPin], number: u8) -> Result<PlainPins, NoMemory>
    ensures { IfOk result (λ list. list ≡ released pins.now number) }
{
    let mut left = ListOf::new(alloc);
    for pin in pins {
        if pin.number() != number {
            left.push(copy_of(pin)?)?;
        }
    }
    Ok(left)
}

pub(crate) fn copy_of(pin: &PlainPin) -> Result<PlainPin, NoMemory>
    ensures { IfOk result (λ p. p ≡ pin.now) }
{
    match pin.clone() {
        Ok(pin) => Ok(pin),
        Err(_) => Err(NoMemory),
    }
}

/// How many units are left to what is live under a number, 0 where nothing is.
pub(crate) fn left_of(pins: &[PlainPin], number: u8) -> u64
    ensures { result ≡ (work_of (unwrap_or (find (λ p. nat_eq p.number number) pins.now) (reading number 0 []))).left }
{
    match first_of(pins, number) {
        Some(pin) => work_of(pin).left,
        None => 0,
    }
}

/// One after so many units.
fn stepped_by(pin: &PlainPin, count: u32) -> Result<PlainPin, NoMemory>
    ensures { IfOk result (λ p. p ≡ with_work (stepped count) pin.now) }
{
    let mut pin = copy_of(pin)?;
    if let Some(work) = pin.work {
        pin.work = Some(PlainWork {
            job: work.job,
            file: work.file,
            left: work.left.saturating_sub(u64::from(count)),
            is_ready: work.left <= u64::from(count),
        });
    }
    Ok(pin)
}

/// The one of this number has done so many units, and where none is left its file is ended.
pub(crate) fn stepped(
    alloc: Global,
    pins: &[PlainPin],
    number: u8,
    count: u32,
) -> Result<PlainPins, NoMemory>
    ensures { IfOk result (λ list. list ≡ working pins.now number (stepped count)) }
{
    let mut list = ListOf::new(alloc);
    for pin in pins {
        if pin.number() == number {
            list.push(stepped_by(pin, count)?)?;
        } else {
            list.push(copy_of(pin)?)?;
        }
    }
    Ok(list)
}
