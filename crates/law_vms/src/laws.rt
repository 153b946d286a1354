// What holds of the VMs of a worker whatever their modules do. The functions have nothing to do: their contracts are the laws.
ghost use Rattle.law_vms.specs.Apart.{CallbacksAreApart};
ghost use Rattle.law_vms.specs.Bounds.{VmsKeepTheirBounds};
ghost use Rattle.law_vms.specs.Examples.{IsolationExamples};
ghost use Rattle.law_vms.specs.Fits.{FitExamples};
ghost use Rattle.law_vms.specs.Frames.{FramesCountTogether, AllocationsNeedAFrame, FrameExamples};
ghost use Rattle.law_vms.specs.LastIds.{IdsRunOut, LastIdExamples};
ghost use Rattle.law_vms.specs.Levels.{LevelExamples};
ghost use Rattle.law_vms.specs.Lives.{LivesKeepPlaces};
ghost use Rattle.law_vms.specs.MadeVms.{MadeVmsAreInPlace};
ghost use Rattle.law_vms.specs.Numbers.{NumberExamples};
ghost use Rattle.law_vms.specs.OwnCalls.{CallsHaveRoom};
ghost use Rattle.law_vms.specs.OwnChanges.{CallbacksChangeTheirOwn, PlacesBegin, PlacesStay};
ghost use Rattle.law_vms.specs.OwnEffects.{EffectsAreOwn};
ghost use Rattle.law_vms.specs.OwnLines.{EffectsActOnOwnLines};
ghost use Rattle.law_vms.specs.OwnStores.{CallbacksAskTheirOwn};
ghost use Rattle.law_vms.specs.SeesItsOwn.{CallbacksSeeTheirOwn, CallbacksAreUnseen};
ghost use Rattle.law_vms.specs.Silent.{DeadVmsAreSilent, MissingCallbacksAreSilent, TiesBegin, TiesStay};

/// A callback of one VM, whatever its module does and whatever the shared stores reply, leaves every other VM just as it was, and of its own what
/// is known of the module. A VM whose callback trapped or spent its fuel is no more.
pub fn callbacks_are_apart()
    ensures { CallbacksAreApart }
{}

/// Nothing is run of a VM that is no more, and nothing where a module does not export the callback: the callback returns without a value, no
/// line is written, neither the machines nor the contexts change, and no shared store is asked. What says which callbacks a module exports is of
/// the module that runs: it is so of every VM that begins, and stays so whatever callbacks do.
pub fn nothing_runs()
    ensures dead { DeadVmsAreSilent }
    ensures missing { MissingCallbacksAreSilent }
    ensures begins { TiesBegin }
    ensures stays { TiesStay }
{}

/// The machines that are made of the VMs of a configuration: each stands at the number of its contexts, and what says which callbacks it exports is
/// of its module.
pub fn made_vms_are_in_place()
    ensures { MadeVmsAreInPlace }
{}

/// A whole callback of one VM, whatever its module does and whatever the shared stores reply, leaves what every other VM has among the contexts
/// just as it was, and each exchange of which its own VM has no context. It makes no contexts and takes none away, and neither the plug-ins nor
/// what is configured change. Each machine stands at the number of its contexts: it is so of every VM that begins, and stays so.
pub fn callbacks_change_their_own()
    ensures contexts { CallbacksChangeTheirOwn }
    ensures begins { PlacesBegin }
    ensures stays { PlacesStay }
{}

/// Over the whole life of a worker whose lines are HTTP, turn by turn and step by step, whatever modules do, stores reply and lines bring: machines that stand at the numbers of their
/// contexts stay there, what says which callbacks are exported stays of the module that runs, and a VM whose callback trapped or spent its fuel is never run
/// again. That a callback changes and asks for its own is so of every callback of such a life; what else is said of callbacks holds of it where its premises are
/// these two.
pub fn lives_keep_places()
    ensures { LivesKeepPlaces }
{}

/// A whole callback sends nothing but lines for the log, each not below the log's level and no longer than a line may be. What it asks its worker to
/// do stands after what was asked before, each of it for a context of its own VM, and all but callouts for one that is of an exchange; and it
/// answers no exchange and ends none by itself. Where its effects are done, whatever they are, a line in whose exchange the VM takes no part
/// stays as it was, what is sent goes out on lines in whose exchanges it does or on those of callouts, and no VM dies.
pub fn effects_are_own()
    ensures asked { EffectsAreOwn }
    ensures lines { EffectsActOnOwnLines }
{}

/// What a callback does depends on nothing that other VMs have, but for their names and what all have in common (the log's level, what was asked of the
/// worker and is not done yet, the place in the random stream, exchanges in which both have contexts): on two workers that have the same machine of the VM,
/// and that look the same to it, its callback asks the same of the shared stores, and for equal replies ends the same, with the same lines and the same
/// machine, and leaves contexts that look the same to it. And to a VM that shares no exchange with it the contexts look afterwards as they did
/// before, but for the effects, which the worker takes out after each callback, and the place in the random stream.
pub fn callbacks_see_their_own()
    ensures sees { CallbacksSeeTheirOwn }
    ensures unseen { CallbacksAreUnseen }
{}

/// What a callback asks of the shared stores, whatever is replied: values and metrics of its own VM's alone. A queue is registered there too, for the
/// root of one of the VM's contexts; it is looked up and used in the store of any VM there is, by its id in the one that the id says.
pub fn callbacks_ask_their_own()
    ensures { CallbacksAskTheirOwn }
{}

/// No callback asks for more callouts than there is room for, whatever its module does: with those that are under way there are at most 64, and each has
/// an id up to 2,147,483,647.
pub fn calls_have_room()
    ensures { CallsHaveRoom }
{}

/// Two VMs with their contexts on two lines, of which they share one, worked.
pub fn worked_isolation()
    ensures { IsolationExamples }
{}

/// The frames of all calls of a guest count together: those of an allocator on top of those of the callback that waits for the host's answer. With
/// more than 256 of them the run is the trap `stack`, and an allocation finds no frame left where the waiting calls have them all.
pub fn frames_count_together()
    ensures runs { FramesCountTogether }
    ensures allocations { AllocationsNeedAFrame }
    ensures worked { FrameExamples }
{}

/// A root and a stream are made under the id that comes next, up to 4294967295. Once that was drawn, a VM that is to have another context dies for
/// want of ids.
pub fn ids_run_out()
    ensures ids { IdsRunOut }
    ensures worked { LastIdExamples }
{}

/// Modules that are written out, each with what stands first against its being a filter's: what keeps it from being linked, that no function of it is
/// the marker, and an export under a name of the table that is no function of the type there.
pub fn worked_fits()
    ensures { FitExamples }
{}

/// The numbers of the levels of log lines, and the levels of the numbers.
pub fn worked_levels()
    ensures { LevelExamples }
{}

/// What callbacks are given: their context, as many numbers more as they take, and after a callout how much came back.
pub fn worked_numbers()
    ensures { NumberExamples }
{}

/// What of a VM never changes, whatever its module does and whatever the shared stores reply, in a callback and over the whole life of a worker whose lines are HTTP: the program that its machine runs, with the
/// most pages that its memory may have; the function that allocates, and what the host answers meanwhile; what its imports stand for; the functions that it exports, and its start function;
/// and the fuel of each run. Where no machine stood none stands afterwards.
pub fn vms_keep_their_bounds()
    ensures { VmsKeepTheirBounds }
{}
