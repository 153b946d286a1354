// The bytes that the stages of filters hold.
ghost use Rattle.std.specs.Prelude.{◌≡◌, ◌≤◌, ◌<◌, ◌+◌, ◌++◌, length, IfOk, OnOk, OnErr, IsTrue, ◌↔◌, option_copied};
ghost use Rattle.std.specs.Borrow.{sem};
ghost use Rattle.contexts.specs.Creating.{no_stage};
ghost use Rattle.contexts.specs.Lending.{stage_in};
ghost use Rattle.contexts.specs.Stages.{own_at, held_at, is_there, with_bytes, let_go, returned, with_buffered, without_buffer, with_callback_answered};

use crate::{Contexts, Own, StageBuffer};
use body_buffers::Body;
use gate_base::{ContextId, Octets, OutOfMemory, VmNo};
use std::alloc::{AllocError, Global};

impl StageBuffer {
    /// Whether its buffer is there for host calls: while its body callback runs, or where bytes are held.
    pub fn is_there(&self) -> bool
        ensures { result ≡ is_there self.now }
    {
        self.is_asked || !self.held.is_empty()
    }

    /// Holds bytes after the others; the body callback is asked about all.
    fn hold(&mut self, bytes: &[u8], end: bool) -> Result<(), OutOfMemory>
        requires { length self.old.held + length bytes.now ≤ 1048576 }
        ensures ok { OnOk result (self.new ≡ with_bytes bytes.now end self.old) }
        ensures err { OnErr result (self.new ≡ self.old) }
    {
        if self.held.push(bytes).is_err() {
            return Err(AllocError);
        }
        self.is_asked = true;
        self.has_end = end;
        Ok(())
    }

    /// A copy of the bytes held.
    fn copy(&self, alloc: Global) -> Result<Octets, OutOfMemory>
        ensures { IfOk result (λ bytes. bytes ≡ self.now.held) }
    {
        self.held.read(alloc, 0, self.held.len())
    }

    /// Holds nothing from here on.
    fn clear(&mut self, alloc: Global)
        ensures { self.new ≡ no_stage }
    {
        self.held = Body::new(alloc);
        self.is_asked = false;
        self.has_end = false;
    }
}

impl Own {
    ghost use Rattle.contexts.specs.Lending.{LendsStage};

    /// The stage of a direction.
    pub fn stage(&self, response: bool) -> &StageBuffer
        ensures { result.now ≡ stage_in response self.now }
    {
        if response {
            &self.response
        } else {
            &self.request
        }
    }

    /// The stage of a direction, to be written.
    pub fn stage_mut(&mut self, response: bool) -> &mut StageBuffer
        ensures* lends { sem 𝓛 (LendsStage self.entry response result) }
        ensures value { result.now ≡ stage_in response self.old }
    {
        if response {
            &mut self.response
        } else {
            &mut self.request
        }
    }
}

impl Contexts {
    /// Whether there is such a VM.
    fn has_vm(&self, vm: VmNo) -> bool
        ensures { IsTrue result ↔ (vm < length self.now.vms) }
    {
        (vm.get() as usize) < self.vms.len()
    }

    /// How many bytes a stage holds; none where its context is not there.
    pub fn held_len(&self, vm: VmNo, id: ContextId, response: bool) -> usize
        ensures { result ≡ length (held_at self.now vm id response) }
    {
        if !self.has_vm(vm) {
            return 0;
        }
        match self.own_of(vm, id) {
            Some(own) => own.stage(response).held.len(),
            None => 0,
        }
    }

    /// A copy of the bytes that a stage holds.
    pub fn held_copy(
        &self,
        alloc: Global,
        vm: VmNo,
        id: ContextId,
        response: bool,
    ) -> Result<Octets, OutOfMemory>
        ensures { IfOk result (λ bytes. bytes ≡ held_at self.now vm id response) }
    {
        if !self.has_vm(vm) {
            return Ok(Octets::new(alloc));
        }
        match self.own_of(vm, id) {
            Some(own) => own.stage(response).copy(alloc),
            None => Ok(Octets::new(alloc)),
        }
    }

    /// Bytes are held at a stage after the others; its body callback is asked about all.
    pub fn hold(
        &mut self,
        vm: VmNo,
        id: ContextId,
        response: bool,
        bytes: &[u8],
        end: bool,
    ) -> Result<(), OutOfMemory>
        requires { length (held_at self.old vm id response) + length bytes.now ≤ 1048576 }
        ensures ok { OnOk result (self.new ≡ with_buffered self.old vm id response bytes.now end) }
        ensures err { OnErr result (self.new ≡ self.old) }
    {
        if !self.has_vm(vm) {
            return Ok(());
        }
        match self.own_of_mut(vm, id) {
            Some(own) => own.stage_mut(response).hold(bytes, end),
            None => Ok(()),
        }
    }

    /// Nothing is held at a stage from here on.
    pub fn let_go(&mut self, alloc: Global, vm: VmNo, id: ContextId, response: bool)
        ensures { self.new ≡ without_buffer self.old vm id response }
    {
        if !self.has_vm(vm) {
            return;
        }
        if let Some(own) = self.own_of_mut(vm, id) {
            own.stage_mut(response).clear(alloc);
        }
    }

    /// A stage's body callback has returned.
    pub fn end_asking(&mut self, vm: VmNo, id: ContextId, response: bool)
        ensures { self.new ≡ with_callback_answered self.old vm id response }
    {
        if !self.has_vm(vm) {
            return;
        }
        if let Some(own) = self.own_of_mut(vm, id) {
            own.stage_mut(response).is_asked = false;
        }
    }
}
