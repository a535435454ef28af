//! What an answer says of the store and the disk, as functions whose contracts say it.
ghost use Rattle.std.specs.Prelude.{◌≡◌, ℕ};
ghost use Rattle.sq_outside.specs.Fault.{Rose};
ghost use Rattle.http_wire.specs.declared.reply.Reply.{Reply};
ghost use Rattle.http_wire.specs.declared.request.Request.{Request};
ghost use Rattle.queue_http.specs.Service.{Answers, Service};
ghost use Rattle.queue_http.specs.Steps.{MayTakeSteps};

/// A request is answered with 503 only where the disk failed since.
pub fn only_faults_are_503()
    ensures { (seat : ℕ) (old new : Service) (request : Request) (reply : Reply)
        → Answers seat old request reply new → reply.status ≡ 503 → Rose old.disk.faults new.disk.faults }
{}

/// An answer does nothing to the store and the disk, or what steps do while a record is written.
pub fn answers_are_steps()
    ensures { (seat : ℕ) (old new : Service) (request : Request) (reply : Reply)
        → Answers seat old request reply new → MayTakeSteps old new }
{}
