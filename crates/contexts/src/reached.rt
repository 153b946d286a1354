// What the effective context reaches, to be read and to be written.
ghost use Rattle.std.specs.Prelude.{◌≡◌, ◌<◌, ◌==◌, length, option_copied, OnOk, OnErr, ◌++◌, ◌∷◌, []};
ghost use Rattle.std.specs.List.{position, list_any};
ghost use Rattle.std.specs.Option.{option_copied_mut};
ghost use Rattle.std.specs.Borrow.{sem};
ghost use Rattle.contexts.specs.Keyed.{first_of_number};
ghost use Rattle.contexts.specs.Reached.{vm_in, exchange_of, seen, effective_of, context_in, context_no, view_at, seen_of, put, no_changes, contains, level_no};

use crate::{
    Context, Contexts, Effect, EffectKind, ExchangeEntry, ExchangeView, Own, Plugin, Tick,
    VmContexts,
};
use gate_base::{ContextId, Level, Members, OutOfMemory, VmNo};

/// Where the context of an id stands.
pub(crate) fn place_of(contexts: &[Context], id: ContextId) -> Option<usize>
    ensures { result ≡ position (λ c. c.id == id) contexts.now }
{
    contexts.iter().position(|c| c.id == id)
}

/// The context of an id.
fn context_at(contexts: &[Context], id: ContextId) -> Option<&Context>
    ensures { option_copied result ≡ first_of_number context_no id contexts.now }
{
    contexts.iter().find(|c| c.id == id)
}

/// Whether there is a context of an id.
fn has_id(contexts: &[Context], id: ContextId) -> bool
    ensures { result ≡ list_any (λ c. c.id == id) contexts.now }
{
    contexts.iter().any(|c| c.id == id)
}

/// What the contexts of the exchange at a place have in common.
fn view_at(exchanges: &[Option<ExchangeEntry>], place: usize) -> Option<&ExchangeView>
    ensures { option_copied result ≡ view_at exchanges.now place }
{
    if place >= exchanges.len() {
        return None;
    }
    match &exchanges[place] {
        Some(x) => Some(&x.view),
        None => None,
    }
}

impl Contexts {
    ghost use Rattle.contexts.specs.Lending.{LendsOwn, LendsOwnOf, LendsExchange, LendsExchangeAt};

    /// The contexts of a VM.
    pub fn vm(&self, vm: VmNo) -> &VmContexts
        requires { vm < length self.now.vms }
        ensures { result.now ≡ vm_in self.now vm }
    {
        self.vms.get(vm.get() as usize)
    }

    /// The plug-in of the effective context.
    pub fn plugin(&self, vm: VmNo) -> Option<&Plugin>
        requires { vm < length self.now.vms }
        ensures { option_copied result ≡ (seen self.now vm).reach.plugin }
    {
        match self.context(vm) {
            Some(c) => self.plugins.as_slice().get(c.plugin as usize),
            None => None,
        }
    }

    /// The id of the effective context of a VM.
    pub fn effective(&self, vm: VmNo) -> ContextId
        requires { vm < length self.now.vms }
        ensures { result ≡ effective_of self.now vm }
    {
        self.vms.get(vm.get() as usize).effective
    }

    /// The context of an id.
    pub(crate) fn context_of(&self, vm: VmNo, id: ContextId) -> Option<&Context>
        requires { vm < length self.now.vms }
        ensures { option_copied result ≡ context_in self.now vm id }
    {
        context_at(self.vm(vm).contexts.as_slice(), id)
    }

    /// The effective context of a VM.
    fn context(&self, vm: VmNo) -> Option<&Context>
        requires { vm < length self.now.vms }
        ensures { option_copied result ≡ context_in self.now vm (effective_of self.now vm) }
    {
        let v = self.vms.get(vm.get() as usize);
        context_at(v.contexts.as_slice(), v.effective)
    }

    /// What the effective context has for itself.
    pub fn own(&self, vm: VmNo) -> Option<&Own>
        requires { vm < length self.now.vms }
        ensures { option_copied result ≡ (seen self.now vm).reach.own }
    {
        self.own_of(vm, self.effective(vm))
    }

    /// What the exchange of the effective context has.
    pub fn exchange(&self, vm: VmNo) -> Option<&ExchangeView>
        requires { vm < length self.now.vms }
        ensures { option_copied result ≡ (seen self.now vm).reach.exchange }
    {
        match self.exchange_place(vm) {
            Some(place) => self.exchange_at(place),
            None => None,
        }
    }

    /// Puts an effect of the effective context after the others.
    pub fn push_effect(&mut self, vm: VmNo, what: EffectKind) -> Result<(), OutOfMemory>
        requires { vm < length self.old.vms }
        ensures ok { OnOk result (self.new ≡ record self.old { effects = self.old.effects ++ (record { context = effective_of self.old vm; what = what }) ∷ [] }) }
        ensures err { OnErr result (self.new ≡ self.old) }
    {
        let context = self.effective(vm);
        self.effects.push(Effect { context, what })
    }

    /// Whether a VM has a context of this id.
    pub fn has(&self, vm: VmNo, id: ContextId) -> bool
        requires { vm < length self.now.vms }
        ensures { result ≡ contains id (seen self.now vm).common.ids }
    {
        has_id(self.vm(vm).contexts.as_slice(), id)
    }

    /// What a context has for itself.
    pub fn own_of(&self, vm: VmNo, id: ContextId) -> Option<&Own>
        requires { vm < length self.now.vms }
        ensures { option_copied result ≡ (seen_of self.now vm id).reach.own }
    {
        match context_at(self.vm(vm).contexts.as_slice(), id) {
            Some(c) => Some(&c.own),
            None => None,
        }
    }

    /// What a context has for itself, to be written.
    pub fn own_of_mut(&mut self, vm: VmNo, id: ContextId) -> Option<&mut Own>
        requires { vm < length self.old.vms }
        ensures* lends { sem 𝓛 (LendsOwnOf self.entry vm id result) }
        ensures value { option_copied_mut result ≡ (seen_of self.old vm id).reach.own }
    {
        let v = self.vms.get_mut(vm.get() as usize);
        match place_of(v.contexts.as_slice(), id) {
            Some(at) => {
                let c = v.contexts.get_mut(at);
                Some(&mut c.own)
            }
            None => None,
        }
    }

    /// What the effective context has for itself, to be written.
    pub fn own_mut(&mut self, vm: VmNo) -> Option<&mut Own>
        requires { vm < length self.old.vms }
        ensures* lends { sem 𝓛 (LendsOwn self.entry vm result) }
        ensures value { option_copied_mut result ≡ (seen self.old vm).reach.own }
    {
        let id = self.effective(vm);
        self.own_of_mut(vm, id)
    }

    /// The place of the effective context's exchange.
    fn exchange_place(&self, vm: VmNo) -> Option<usize>
        requires { vm < length self.now.vms }
        ensures { result ≡ exchange_of (context_in self.now vm (effective_of self.now vm)) }
    {
        match self.context(vm) {
            Some(c) => c.exchange,
            None => None,
        }
    }

    /// What the contexts of the exchange at a place have in common.
    pub fn exchange_at(&self, place: usize) -> Option<&ExchangeView>
        ensures { option_copied result ≡ view_at self.now.exchanges place }
    {
        view_at(self.exchanges.as_slice(), place)
    }

    /// What the contexts of the exchange at a place have in common, to be written.
    pub fn exchange_at_mut(&mut self, place: usize) -> Option<&mut ExchangeView>
        ensures* lends { sem 𝓛 (LendsExchangeAt self.entry place result) }
        ensures value { option_copied_mut result ≡ view_at self.old.exchanges place }
    {
        if place >= self.exchanges.len() {
            return None;
        }
        match self.exchanges.get_mut(place) {
            Some(x) => Some(&mut x.view),
            None => None,
        }
    }

    /// What the exchange of the effective context has, to be written.
    pub fn exchange_mut(&mut self, vm: VmNo) -> Option<&mut ExchangeView>
        requires { vm < length self.old.vms }
        ensures* lends { sem 𝓛 (LendsExchange self.entry vm result) }
        ensures value { option_copied_mut result ≡ (seen self.old vm).reach.exchange }
    {
        match self.exchange_place(vm) {
            Some(place) => self.exchange_at_mut(place),
            None => None,
        }
    }

    /// Sets the tick of the effective context's root.
    pub fn set_tick(&mut self, vm: VmNo, tick: Option<Tick>)
        requires { vm < length self.old.vms }
        ensures { self.new ≡ put (record no_changes { tick = Some tick }) vm self.old }
    {
        let Some(root) = self.root(vm) else { return };
        let v = self.vms.get_mut(vm.get() as usize);
        if let Some(at) = place_of(v.contexts.as_slice(), root) {
            v.contexts.get_mut(at).tick = tick;
        }
    }

    /// The root of the effective context.
    pub fn root(&self, vm: VmNo) -> Option<ContextId>
        requires { vm < length self.now.vms }
        ensures { result ≡ (seen self.now vm).reach.root }
    {
        match self.context(vm) {
            Some(c) => Some(c.root),
            None => None,
        }
    }

    /// The number of the least level of which lines are sent.
    pub fn level_number(&self) -> u8
        ensures { result ≡ level_no self.now.level }
    {
        match self.level {
            Level::Trace => 0,
            Level::Debug => 1,
            Level::Info => 2,
            Level::Warn => 3,
            Level::Error => 4,
            Level::Critical => 5,
        }
    }

    /// So many words of the random stream are used.
    pub fn set_random_place(&mut self, vm: VmNo, place: u64)
        requires { vm < length self.old.vms }
        ensures { self.new ≡ put (record no_changes { random_place = Some place }) vm self.old }
    {
        self.random_place = place;
    }
}
