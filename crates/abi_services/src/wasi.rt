// The calls of WASI on the clock, random bytes, arguments and the environment, and the exit.
ghost use Rattle.std.specs.Prelude.{◌≡◌, ◌≤◌, ◌<◌, length, IfOk, OnErr};
ghost use Rattle.abi_types.specs.GuestAt.{Keeps, StillWaits};
ghost use Rattle.contexts.specs.Reached.{seen, put};
ghost use Rattle.abi_model.specs.Calls.{does, told, Ends, RestsAfterCall, AreShort};
ghost use Rattle.abi_model.specs.Table.{Are, wasi_row_of};
ghost use Rattle.abi_model.specs.declared.table.WasiCall.TheVariants as call;
ghost use Rattle.abi_services.specs.Wasi.{random_bytes as random_at, randomly, own_clock_time_get, own_nothing, own_no_sizes, own_random_get};

use abi_model::{
    Gives, HostEnd, LocalCall, Outcome, Param, Ranges, WasiCall, answer, given, local_call,
    wasi_call_row,
};
use abi_types::Guest;
use contexts::Contexts;
use gate_base::{Octets, OutOfMemory, VmNo};
use rand_chacha::ChaCha8Rng;
use rand_core::SeedableRng;
use rand_core::utils::fill_bytes_via_u32;
use std::alloc::Global;

/// How many random bytes a call may ask for.
const RANDOM_LIMIT: u64 = 65_536;

/// So many bytes of the random stream from a place on.
fn random_bytes(alloc: Global, seed: [u8; 32], place: u64, len: u64) -> Result<Octets, OutOfMemory>
    requires { len ≤ 65536 }
    ensures bytes { IfOk result (λ o. o ≡ random_at len seed place) }
    ensures short { IfOk result (λ o. length o ≤ 65536) }
{
    let mut rng = ChaCha8Rng::from_seed(seed);
    rng.set_word_pos(place as u128);
    let mut bytes = Vec::from_elem(alloc, 0, len as usize)?;
    fill_bytes_via_u32(&mut rng, bytes.as_mut_slice());
    Ok(Octets::from_vec(bytes))
}

/// Gives random bytes.
fn random(
    alloc: Global,
    contexts: &mut Contexts,
    vm: VmNo,
    len: u64,
) -> Result<Outcome, OutOfMemory>
    requires { vm < length contexts.old.vms }
    ensures made { IfOk result (λ o. o ≡ told (randomly len (seen contexts.old vm))) }
    ensures short { IfOk result (λ o. AreShort o.gives) }
    ensures changes { IfOk result (λ _. contexts.new ≡ put (randomly len (seen contexts.old vm)).changes vm contexts.old) }
    ensures err { OnErr result (contexts.new ≡ contexts.old) }
{
    if len > RANDOM_LIMIT {
        return Ok(answer(28));
    }
    let place = contexts.random_place;
    let bytes = random_bytes(alloc, contexts.random_key, place, len)?;
    contexts.set_random_place(vm, place.saturating_add((len + 3) / 4));
    Ok(given(Gives::Written { bytes }))
}

/// Gives the event's moment.
#[derive(Clone, Copy)]
struct ClockTimeGet {
    now: u64,
}

impl LocalCall for ClockTimeGet {
    ghost params = { λ _. wasi_row_of call.ClockTimeGet };

    ghost own = { λ c. own_clock_time_get c.now };

    fn parameters(&self) -> &'static [Param] {
        wasi_call_row(WasiCall::ClockTimeGet)
    }

    fn make(
        &self,
        alloc: Global,
        contexts: &mut Contexts,
        vm: VmNo,
        args: &[u64],
        inputs: &Ranges,
    ) -> Result<Outcome, OutOfMemory> {
        if args[0] > 1 {
            return Ok(answer(28));
        }
        Ok(given(Gives::Wide { number: self.now }))
    }
}

/// Gives the event's moment of the clocks 0 and 1, in nanoseconds, as a number of eight bytes. 28: another clock.
pub fn wasi_clock_time_get<G: Guest>(
    alloc: Global,
    guest: &mut G,
    contexts: &mut Contexts,
    vm: VmNo,
    now: u64,
    args: &[u64],
) -> HostEnd
    requires rests { G.rests guest.old }
    requires vm { vm < length contexts.old.vms }
    requires args { Are (wasi_row_of call.ClockTimeGet) 0 args.now }
    ensures ends { Ends (does 21 (wasi_row_of call.ClockTimeGet) (own_clock_time_get now) args.now (G.at guest.old) (seen contexts.old vm)) vm contexts.old result (G.at guest.new) contexts.new }
    ensures rests { RestsAfterCall result (StillWaits (G.rests guest.new) (G.at guest.old) (G.at guest.new)) }
    ensures keeps { Keeps (G.at guest.old) (G.at guest.new) }
{
    local_call(alloc, &ClockTimeGet { now }, 21, guest, contexts, vm, args)
}

/// Gives random bytes.
struct RandomGet;

impl LocalCall for RandomGet {
    ghost params = { λ _. wasi_row_of call.RandomGet };

    ghost own = { λ _. own_random_get };

    fn parameters(&self) -> &'static [Param] {
        wasi_call_row(WasiCall::RandomGet)
    }

    fn make(
        &self,
        alloc: Global,
        contexts: &mut Contexts,
        vm: VmNo,
        args: &[u64],
        inputs: &Ranges,
    ) -> Result<Outcome, OutOfMemory> {
        random(alloc, contexts, vm, args[1])
    }
}

/// Writes the next words of the worker's random stream, cut to the length. 28: more than 65,536 bytes.
pub fn wasi_random_get<G: Guest>(
    alloc: Global,
    guest: &mut G,
    contexts: &mut Contexts,
    vm: VmNo,
    args: &[u64],
) -> HostEnd
    requires rests { G.rests guest.old }
    requires vm { vm < length contexts.old.vms }
    requires args { Are (wasi_row_of call.RandomGet) 0 args.now }
    ensures ends { Ends (does 21 (wasi_row_of call.RandomGet) own_random_get args.now (G.at guest.old) (seen contexts.old vm)) vm contexts.old result (G.at guest.new) contexts.new }
    ensures rests { RestsAfterCall result (StillWaits (G.rests guest.new) (G.at guest.old) (G.at guest.new)) }
    ensures keeps { Keeps (G.at guest.old) (G.at guest.new) }
{
    local_call(alloc, &RandomGet, 21, guest, contexts, vm, args)
}

/// Writes nothing.
struct EnvironGet;

impl LocalCall for EnvironGet {
    ghost params = { λ _. wasi_row_of call.EnvironGet };

    ghost own = { λ _. own_nothing };

    fn parameters(&self) -> &'static [Param] {
        wasi_call_row(WasiCall::EnvironGet)
    }

    fn make(
        &self,
        alloc: Global,
        contexts: &mut Contexts,
        vm: VmNo,
        args: &[u64],
        inputs: &Ranges,
    ) -> Result<Outcome, OutOfMemory> {
        Ok(answer(0))
    }
}

/// Writes nothing: there is no environment and there are no arguments.
pub fn wasi_environ_get<G: Guest>(
    alloc: Global,
    guest: &mut G,
    contexts: &mut Contexts,
    vm: VmNo,
    args: &[u64],
) -> HostEnd
    requires rests { G.rests guest.old }
    requires vm { vm < length contexts.old.vms }
    requires args { Are (wasi_row_of call.EnvironGet) 0 args.now }
    ensures ends { Ends (does 21 (wasi_row_of call.EnvironGet) own_nothing args.now (G.at guest.old) (seen contexts.old vm)) vm contexts.old result (G.at guest.new) contexts.new }
    ensures rests { RestsAfterCall result (StillWaits (G.rests guest.new) (G.at guest.old) (G.at guest.new)) }
    ensures keeps { Keeps (G.at guest.old) (G.at guest.new) }
{
    local_call(alloc, &EnvironGet, 21, guest, contexts, vm, args)
}

/// Writes nothing.
struct ArgsGet;

impl LocalCall for ArgsGet {
    ghost params = { λ _. wasi_row_of call.ArgsGet };

    ghost own = { λ _. own_nothing };

    fn parameters(&self) -> &'static [Param] {
        wasi_call_row(WasiCall::ArgsGet)
    }

    fn make(
        &self,
        alloc: Global,
        contexts: &mut Contexts,
        vm: VmNo,
        args: &[u64],
        inputs: &Ranges,
    ) -> Result<Outcome, OutOfMemory> {
        Ok(answer(0))
    }
}

/// Writes nothing: there is no environment and there are no arguments.
pub fn wasi_args_get<G: Guest>(
    alloc: Global,
    guest: &mut G,
    contexts: &mut Contexts,
    vm: VmNo,
    args: &[u64],
) -> HostEnd
    requires rests { G.rests guest.old }
    requires vm { vm < length contexts.old.vms }
    requires args { Are (wasi_row_of call.ArgsGet) 0 args.now }
    ensures ends { Ends (does 21 (wasi_row_of call.ArgsGet) own_nothing args.now (G.at guest.old) (seen contexts.old vm)) vm contexts.old result (G.at guest.new) contexts.new }
    ensures rests { RestsAfterCall result (StillWaits (G.rests guest.new) (G.at guest.old) (G.at guest.new)) }
    ensures keeps { Keeps (G.at guest.old) (G.at guest.new) }
{
    local_call(alloc, &ArgsGet, 21, guest, contexts, vm, args)
}

/// Gives two zeros.
struct EnvironSizesGet;

impl LocalCall for EnvironSizesGet {
    ghost params = { λ _. wasi_row_of call.EnvironSizesGet };

    ghost own = { λ _. own_no_sizes };

    fn parameters(&self) -> &'static [Param] {
        wasi_call_row(WasiCall::EnvironSizesGet)
    }

    fn make(
        &self,
        alloc: Global,
        contexts: &mut Contexts,
        vm: VmNo,
        args: &[u64],
        inputs: &Ranges,
    ) -> Result<Outcome, OutOfMemory> {
        Ok(given(Gives::Numbers {
            first: 0,
            second: 0,
        }))
    }
}

/// Gives two zeros: there is no environment and there are no arguments.
pub fn wasi_environ_sizes_get<G: Guest>(
    alloc: Global,
    guest: &mut G,
    contexts: &mut Contexts,
    vm: VmNo,
    args: &[u64],
) -> HostEnd
    requires rests { G.rests guest.old }
    requires vm { vm < length contexts.old.vms }
    requires args { Are (wasi_row_of call.EnvironSizesGet) 0 args.now }
    ensures ends { Ends (does 21 (wasi_row_of call.EnvironSizesGet) own_no_sizes args.now (G.at guest.old) (seen contexts.old vm)) vm contexts.old result (G.at guest.new) contexts.new }
    ensures rests { RestsAfterCall result (StillWaits (G.rests guest.new) (G.at guest.old) (G.at guest.new)) }
    ensures keeps { Keeps (G.at guest.old) (G.at guest.new) }
{
    local_call(alloc, &EnvironSizesGet, 21, guest, contexts, vm, args)
}

/// Gives two zeros.
struct ArgsSizesGet;

impl LocalCall for ArgsSizesGet {
    ghost params = { λ _. wasi_row_of call.ArgsSizesGet };

    ghost own = { λ _. own_no_sizes };

    fn parameters(&self) -> &'static [Param] {
        wasi_call_row(WasiCall::ArgsSizesGet)
    }

    fn make(
        &self,
        alloc: Global,
        contexts: &mut Contexts,
        vm: VmNo,
        args: &[u64],
        inputs: &Ranges,
    ) -> Result<Outcome, OutOfMemory> {
        Ok(given(Gives::Numbers {
            first: 0,
            second: 0,
        }))
    }
}

/// Gives two zeros: there is no environment and there are no arguments.
pub fn wasi_args_sizes_get<G: Guest>(
    alloc: Global,
    guest: &mut G,
    contexts: &mut Contexts,
    vm: VmNo,
    args: &[u64],
) -> HostEnd
    requires rests { G.rests guest.old }
    requires vm { vm < length contexts.old.vms }
    requires args { Are (wasi_row_of call.ArgsSizesGet) 0 args.now }
    ensures ends { Ends (does 21 (wasi_row_of call.ArgsSizesGet) own_no_sizes args.now (G.at guest.old) (seen contexts.old vm)) vm contexts.old result (G.at guest.new) contexts.new }
    ensures rests { RestsAfterCall result (StillWaits (G.rests guest.new) (G.at guest.old) (G.at guest.new)) }
    ensures keeps { Keeps (G.at guest.old) (G.at guest.new) }
{
    local_call(alloc, &ArgsSizesGet, 21, guest, contexts, vm, args)
}
