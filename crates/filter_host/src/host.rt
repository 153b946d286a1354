// All machines of a worker, as the worker sees them.
ghost use Rattle.std.specs.Prelude.{◌≡◌, ◌≤◌, Bool, ℕ};
ghost use Rattle.contexts.specs.declared.parts.Contexts.{Contexts};
ghost use Rattle.filter_host.specs.Called.{Called, called_back};
ghost use Rattle.filter_host.specs.declared.host.Callback.{Callback};
ghost use Rattle.store_model.specs.Program.{Program, Ends};

use contexts::Contexts;
use gate_base::{Cause, OutOfMemory, VmNo};
use gate_io::SentList;
use std::alloc::Global;
use store_model::Shared;

/// The functions of a module that the gateway calls, with what each is given after the id of a context.
#[derive(Clone, Copy)]
pub enum Callback {
    /// The module's start function, and then `_initialize` or else `_start`. They are given nothing, and no context is effective.
    Begin,
    /// `proxy_on_context_create`: the id of its root, or 0.
    ContextCreate,
    /// `proxy_on_vm_start`: how many bytes the configuration of the VM has.
    VmStart,
    /// `proxy_on_configure`: how many bytes the configuration of the plug-in has.
    Configure,
    /// `proxy_on_tick`.
    Tick,
    /// `proxy_on_queue_ready`: the queue.
    QueueReady,
    /// `proxy_on_request_headers`: how many pairs the map has, and whether the message ends with its head.
    RequestHeaders,
    /// `proxy_on_request_body`: how many bytes there are, and whether the message ends with them.
    RequestBody,
    /// `proxy_on_request_trailers`: how many pairs the map has.
    RequestTrailers,
    /// `proxy_on_response_headers`, given as those of a request.
    ResponseHeaders,
    /// `proxy_on_response_body`, given as those of a request.
    ResponseBody,
    /// `proxy_on_response_trailers`, given as those of a request.
    ResponseTrailers,
    /// `proxy_on_done`.
    Done,
    /// `proxy_on_log`.
    Log,
    /// `proxy_on_delete`.
    Delete,
    /// `proxy_on_http_call_response`: the call. The counts after it are those of what the context has of the answer.
    CallAnswered,
    /// `proxy_on_new_connection`.
    NewConnection,
    /// `proxy_on_downstream_data`: how many bytes there are, and whether they are the last.
    DownstreamData,
    /// `proxy_on_upstream_data`, given as that of the client's side.
    UpstreamData,
    /// `proxy_on_downstream_connection_close`: which side ended it.
    DownstreamClose,
    /// `proxy_on_upstream_connection_close`: which side ended it.
    UpstreamClose,
}

/// Why a VM died.
#[derive(Clone, Copy)]
pub enum Death {
    /// A callback trapped.
    Trapped { cause: Cause },
    /// A callback spent its fuel.
    FuelSpent,
    /// `proxy_on_vm_start` answered 0.
    Start,
    /// `proxy_on_configure` answered 0.
    Configure,
    /// No id of a context is left.
    Ids,
}

/// How a callback ended.
#[derive(Clone, Copy)]
pub enum CallbackEnd {
    /// It returned, with a value where it has one. One that is not exported has none.
    Returned { value: Option<u32> },
    /// It did not, and its VM is called no more.
    Died { death: Death },
}

/// What comes of a callback.
#[derive(Drop)]
pub struct Answer {
    pub end: CallbackEnd,
    /// What it wrote into the log.
    pub lines: SentList,
}

/// The machines of all VMs of a worker. What a callback does of itself, and what its host calls do, is told by `calling` alone.
pub trait Host {
    /// How many stores they use, which no callback changes.
    ghost needs: { Self → ℕ };

    /// Whether the module of a VM exports a callback.
    ghost exported: { Self → ℕ → Callback → Bool };

    /// Whether the module of a VM registers queues, so that it is told of their items.
    ghost registering: { Self → ℕ → Bool };

    /// What a callback of a VM does: by its context and two numbers more, of which it is given as many as it has parameters, at that
    /// moment. It is run with its own context as the effective one. One that is not exported does nothing.
    ghost calling: { Self → ℕ → Callback → ℕ → ℕ → ℕ → ℕ → Contexts → Program (Called Self) };

    /// Whether the module of a VM exports a callback. It does not where there is no such VM.
    fn exports(&self, vm: VmNo, name: Callback) -> bool
        ensures { result ≡ exported self.now vm name };

    /// Whether the module of a VM imports `proxy_register_shared_queue`. It does not where there is no such VM.
    fn registers(&self, vm: VmNo) -> bool
        ensures { result ≡ registering self.now vm };

    /// Calls a callback of a VM that is not dead. Its effects are among the contexts then. After want of memory neither the machines
    /// nor the contexts are to be used any more.
    fn callback<S: Shared>(
        &mut self,
        alloc: Global,
        vm: VmNo,
        name: Callback,
        context: u32,
        first: u32,
        second: u32,
        now: u64,
        contexts: &mut Contexts,
        shared: &mut S,
    ) -> Result<Answer, OutOfMemory>
        requires stores { needs self.old ≤ S.stores shared.old }
        ensures needs { needs self.new ≡ needs self.old }
        ensures stores { S.stores shared.new ≡ S.stores shared.old }
        ensures run { Ends S.performs shared.old (calling self.old vm name context first second now contexts.old) (λ a. called_back a.end a.lines self.new contexts.new) result shared.new };
}
