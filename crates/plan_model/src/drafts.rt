ghost use Rattle.std.specs.Prelude.{◌≡◌, ◌≢◌, ◌+◌, ◌<◌, ℕ, List, Option, None, Some, IsSome, IsTrue, IsFalse, not, filter};
ghost use Rattle.job_states.specs.Moment.{IsMoment};
ghost use Rattle.job_states.specs.Ranges.{is_in_range};
ghost use Rattle.job_states.specs.States.{stage_of, is_ready, is_blocked, is_claimed, is_failed, is_finished};
ghost use Rattle.job_states.specs.declared.command.Kind.{Kind};
ghost use Rattle.job_states.specs.declared.job.JobRow.{JobRow};
ghost use Rattle.job_states.specs.declared.row.Mode.TheVariants.{Shared};
ghost use Rattle.job_states.specs.declared.transition.Counters.{Counters};
ghost use Rattle.job_states.specs.declared.transition.Put.{Put};
ghost use Rattle.job_states.specs.declared.transition.Put.TheVariants.{Away};
ghost use Rattle.job_states.specs.declared.transition.Transition.{Transition};
ghost use Rattle.job_states.specs.declared.transition.Transition.TheVariants.{Enqueue, Dispatch, Claim, Done, Fail, Release, Unblock, Retry, Discard, Clear, Register, Beat, Deregister, Pause, Resume, Expire};
ghost use Rattle.semaphores.specs.Semaphore.{Semaphore, is_closed, is_expired};
ghost use Rattle.queue_model.specs.GoodWorld.{IsGood};
ghost use Rattle.queue_model.specs.Held.{holds};
ghost use Rattle.queue_model.specs.Map as map;
ghost use Rattle.queue_model.specs.Named.{job_named};
ghost use Rattle.queue_model.specs.Sights.{Rows, sees};
ghost use Rattle.queue_model.specs.Transitions.{changes, is_due, step};
ghost use Rattle.queue_model.specs.World.{World, claims, is_claimed_by, is_key};
ghost use Rattle.queue_model.specs.declared.Job.{Job};
ghost use Rattle.plan_model.specs.Drafts.{Draft, begin, push, end, enqueue, place_for, meets, generation_at, key_given};
ghost use Rattle.queue_model.specs.declared.Numbers.{Numbers};
ghost use Rattle.plan_model.specs.GoodBook.{AreAbove};
ghost use Rattle.plan_model.specs.GoodDraft.{IsAllowed, IsFresh, may_go, is_moved, is_end, ends_claim, moves_process};
ghost use Rattle.plan_model.specs.GoodScene.{IsGoodScene};
ghost use Rattle.plan_model.specs.JobCommands.{may_discard};
ghost use Rattle.plan_model.specs.Orders.{first_blocked, first_of, in_order, is_blocked_at};
ghost use Rattle.plan_model.specs.Refusals.{is_shut_out};
ghost use Rattle.plan_model.specs.Scenes.{Scene};

/// In a good scene a draft begins with numbers to give that nothing in its world has, and it stays so.
pub fn drafts_stay_fresh()
    ensures good { (w : World) (given : Numbers) → IsGood w → AreAbove w.numbers given → IsFresh w given }
    ensures begins { (s : Scene) → IsGoodScene s → IsFresh (begin s).world (begin s).given }
    ensures pushed { (m : ℕ) (t : Transition) (d : Draft)
        → IsFresh d.world d.given → IsFresh (push m t d).world (push m t d).given }
    ensures ended { (m id : ℕ) (t : Transition) (d : Draft)
        → IsFresh d.world d.given → IsFresh (end m id t d).0.world (end m id t d).0.given }
    ensures enqueued { (m : ℕ) (row : JobRow) (at : Option ℕ) (d : Draft)
        → IsFresh d.world d.given → IsFresh (enqueue m row at d).0.world (enqueue m row at d).0.given }
{}

/// Where a draft stands, each of these transitions is allowed, by what stands there.
pub fn pushes_are_allowed()
    ensures enqueue { (m : ℕ) (d : Draft) (row : JobRow) (at : Option ℕ) (put : Put)
        → IsFresh d.world d.given → row.id ≡ d.given.job → put ≡ place_for d m at row.limited → put ≢ Away
        → IsAllowed m d (Enqueue row put) }
    ensures dispatch { (m id : ℕ) (d : Draft) (j : Job) (put : Put)
        → IsFresh d.world d.given → map.get d.world.jobs id ≡ Some j → IsTrue (is_due m j.state)
        → put ≡ meets d m j.row.limited → IsAllowed m d (Dispatch id put) }
    ensures retry { (m id : ℕ) (d : Draft) (j : Job) (put : Put)
        → IsFresh d.world d.given → map.get d.world.jobs id ≡ Some j → IsTrue (is_failed (Some (stage_of j.state)))
        → IsFalse (is_shut_out d.world j.row.limited) → put ≡ meets d m j.row.limited → IsAllowed m d (Retry id put) }
    ensures unblock { (m id : ℕ) (key : List ℕ) (d : Draft) (j : Job) (generation : ℕ)
        → IsFresh d.world d.given → map.get d.world.jobs id ≡ Some j → IsTrue (is_blocked (Some (stage_of j.state)))
        → IsTrue (is_key key j.row.limited) → IsFalse (is_closed (map.get d.world.semaphores key))
        → generation ≡ generation_at d key → IsAllowed m d (Unblock id generation) }
    ensures claim { (m id : ℕ) (d : Draft) (j : Job) → map.get d.world.jobs id ≡ Some j → (pid : ℕ)
        → IsTrue (is_ready (Some (stage_of j.state))) → IsSome (map.get d.world.processes pid) → claims d.world pid < 500
        → IsAllowed m d (Claim id pid) }
    ensures done { (m id : ℕ) (d : Draft) (j : Job) → map.get d.world.jobs id ≡ Some j
        → IsTrue (is_claimed (Some (stage_of j.state))) → IsAllowed m d (Done id) }
    ensures fail { (m id : ℕ) (d : Draft) (j : Job) → map.get d.world.jobs id ≡ Some j
        → (error message : List ℕ) (counters : Option Counters)
        → IsTrue (is_claimed (Some (stage_of j.state))) → IsAllowed m d (Fail id error message counters) }
    ensures release { (m id : ℕ) (d : Draft) (j : Job) → map.get d.world.jobs id ≡ Some j
        → IsTrue (is_claimed (Some (stage_of j.state))) → IsAllowed m d (Release id) }
    ensures discard { (m id : ℕ) (d : Draft) (j : Job) → map.get d.world.jobs id ≡ Some j
        → IsTrue (may_discard (Some (stage_of j.state))) → IsAllowed m d (Discard id) }
    ensures clear { (m id : ℕ) (d : Draft) (j : Job) → map.get d.world.jobs id ≡ Some j
        → IsTrue (is_finished (Some (stage_of j.state))) → IsAllowed m d (Clear id) }
    ensures register { (m pid : ℕ) (kind : Kind) (name : List ℕ) (d : Draft)
        → IsFresh d.world d.given → pid ≡ d.given.pid → IsAllowed m d (Register pid kind name) }
    ensures beat { (m pid : ℕ) (d : Draft) → IsSome (map.get d.world.processes pid) → IsAllowed m d (Beat pid) }
    ensures deregister { (m pid : ℕ) (d : Draft)
        → IsSome (map.get d.world.processes pid) → claims d.world pid ≡ 0 → IsAllowed m d (Deregister pid) }
    ensures pause { (m : ℕ) (queue : List ℕ) (d : Draft) → map.get d.world.paused queue ≡ None → IsAllowed m d (Pause queue) }
    ensures resume { (m : ℕ) (queue : List ℕ) (d : Draft) → IsSome (map.get d.world.paused queue) → IsAllowed m d (Resume queue) }
    ensures expire { (m : ℕ) (key : List ℕ) (d : Draft) (s : Semaphore)
        → map.get d.world.semaphores key ≡ Some s → IsTrue (is_expired s m) → IsAllowed m d (Expire key) }
{}

/// In a good world, of a job's end: the first blocked job of a key to which a permit comes back may be let go, the world
/// stays good, and other jobs stay as they were, but for the one that is let go. Where some jobs moved and none of them is
/// blocked at the key, its first blocked job is the first of those that didn't.
pub fn ends_let_go()
    ensures unblock { (m : ℕ) (t : Transition) (d : Draft) (id : ℕ)
        → IsGood d.world → IsMoment m → IsTrue (is_end t) → job_named t ≡ Some id → IsAllowed m d t
        → (key : List ℕ) (j : Job) (generation : ℕ)
        → key_given d.world id ≡ Some key → first_blocked (push m t d).world key ≡ Some j
        → generation ≡ generation_at (push m t d) key → IsAllowed m (push m t d) (Unblock j.row.id generation) }
    ensures good { (m : ℕ) (t : Transition) (d : Draft) (id : ℕ)
        → IsGood d.world → IsMoment m → IsTrue (is_end t) → job_named t ≡ Some id → IsAllowed m d t
        → IsGood (end m id t d).0.world }
    ensures others { (m : ℕ) (t : Transition) (d : Draft) (id : ℕ)
        → IsGood d.world → IsMoment m → IsTrue (is_end t) → job_named t ≡ Some id → IsAllowed m d t
        → (other : ℕ) → id ≢ other → (o : Job) → map.get d.world.jobs other ≡ Some o
        → IsFalse (is_blocked (Some (stage_of o.state))) → map.get (end m id t d).0.world.jobs other ≡ Some o }
    ensures discardable { (m : ℕ) (t : Transition) (d : Draft) (id : ℕ)
        → IsGood d.world → IsMoment m → IsTrue (is_end t) → job_named t ≡ Some id → IsAllowed m d t
        → (other : ℕ) → id ≢ other → IsTrue (may_go (map.get d.world.jobs other))
        → IsTrue (may_go (map.get (end m id t d).0.world.jobs other)) }
    ensures processes { (m id : ℕ) (t : Transition) (d : Draft) → IsTrue (is_end t)
        → (pid : ℕ) → map.get (end m id t d).0.world.processes pid ≡ map.get d.world.processes pid }
    ensures first { (w v : World) (key moved : List ℕ) → IsGood w → IsGood v
        → ((id : ℕ) → IsFalse (is_moved moved id) → map.get v.jobs id ≡ map.get w.jobs id)
        → ((id : ℕ) (j : Job) → IsTrue (is_moved moved id) → map.get v.jobs id ≡ Some j → IsFalse (is_blocked_at key j))
        → first_blocked v key ≡ first_of (filter (λ j. not (is_moved moved j.row.id)) (in_order (filter (is_blocked_at key) (map.values w.jobs)))) }
    ensures claims { (m : ℕ) (t : Transition) (id pid : ℕ) (d : Draft) (j : Job)
        → IsAllowed m d t → IsTrue (ends_claim t) → job_named t ≡ Some id → map.get d.world.jobs id ≡ Some j
        → IsTrue (is_claimed_by pid j) → claims (end m id t d).0.world pid + 1 ≡ claims d.world pid }
{}

/// What stands in a draft after a transition: at the rows that it holds what it leaves there, and at others what stood there.
pub fn moves_are_seen()
    ensures legal { (m : ℕ) (t : Transition) (d : Draft)
        → IsTrue (is_in_range t) → IsAllowed m d t → step d.world m t ≡ Some (push m t d).world }
    ensures good { (m : ℕ) (t : Transition) (d : Draft)
        → IsGood d.world → IsMoment m → IsTrue (is_in_range t) → IsAllowed m d t → IsGood (push m t d).world }
    ensures rows { (m : ℕ) (t : Transition) (d : Draft) → IsAllowed m d t
        → (c : Rows) × (changes m (sees d.world (holds d.world t)) t ≡ Some c) }
    ensures job_here { (m : ℕ) (t : Transition) (d : Draft) (c : Rows) → changes m (sees d.world (holds d.world t)) t ≡ Some c
        → (id : ℕ) → job_named t ≡ Some id → map.get (push m t d).world.jobs id ≡ c.job }
    ensures job_there { (m : ℕ) (t : Transition) (d : Draft)
        → (id : ℕ) → job_named t ≢ Some id → map.get (push m t d).world.jobs id ≡ map.get d.world.jobs id }
    ensures limits_stay { (m : ℕ) (t : Transition) (d : Draft) (id : ℕ) (j k : Job) → map.get d.world.jobs id ≡ Some j
        → map.get (push m t d).world.jobs id ≡ Some k → k.row.limited ≡ j.row.limited }
    ensures semaphore_here { (m : ℕ) (t : Transition) (d : Draft) (c : Rows) → changes m (sees d.world (holds d.world t)) t ≡ Some c
        → (key : List ℕ) → (holds d.world t).key ≡ Some key → map.get (push m t d).world.semaphores key ≡ c.semaphore }
    ensures semaphore_there { (m : ℕ) (t : Transition) (d : Draft) → (key : List ℕ) → (holds d.world t).key ≢ Some key
        → map.get (push m t d).world.semaphores key ≡ map.get d.world.semaphores key }
    ensures semaphores_stay { (m : ℕ) (t : Transition) (d : Draft)
        → (holds d.world t).key ≡ None → (push m t d).world.semaphores ≡ d.world.semaphores }
    ensures processes_stay { (m : ℕ) (t : Transition) (d : Draft) → IsFalse (moves_process t)
        → (pid : ℕ) → map.get (push m t d).world.processes pid ≡ map.get d.world.processes pid }
    ensures pauses_stay { (m : ℕ) (t : Transition) (d : Draft)
        → (holds d.world t).queue ≡ None → (push m t d).world.paused ≡ d.world.paused }
    ensures claimed { (m id pid : ℕ) (d : Draft)
        → IsAllowed m d (Claim id pid) → claims (push m (Claim id pid) d).world pid ≡ claims d.world pid + 1 }
    ensures claim_ended { (m : ℕ) (t : Transition) (id pid : ℕ) (d : Draft) (j : Job)
        → IsAllowed m d t → IsTrue (ends_claim t) → job_named t ≡ Some id → map.get d.world.jobs id ≡ Some j
        → IsTrue (is_claimed_by pid j) → claims (push m t d).world pid + 1 ≡ claims d.world pid }
    ensures claims_stay { (m : ℕ) (t : Transition) (d : Draft) (pid : ℕ)
        → (holds d.world t).process ≢ Some (pid, Shared) → claims (push m t d).world pid ≡ claims d.world pid }
{}
