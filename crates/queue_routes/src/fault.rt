use job_envelope::EnvelopeFault;
use job_states::NoMemory;
use std::alloc::{AllocError, AllocFailed};

/// What is wrong with a body.
#[derive(Debug, Drop)]
pub enum BodyFault {
    /// It isn't the UTF-8 text of JSON, or of a JSON object where members are read.
    NotJson,
    /// A member that is needed isn't there.
    Missing { member: BodyMember },
    /// A member's value is of the wrong kind, or out of its range.
    WrongKind { member: BodyMember },
    /// The envelope at this place of the request, counted from 0, has a fault.
    Envelope { index: u32, fault: EnvelopeFault },
}

/// The members of bodies; `jobs` stands for the body of a bulk as a whole.
#[derive(Clone, Copy, Debug)]
pub enum BodyMember {
    Kind,
    Name,
    Limit,
    Queues,
    Error,
    Message,
    Jobs,
}

impl BodyMember {
    ghost use Rattle.std.specs.Prelude.{◌≡◌};
    ghost use Rattle.queue_routes.specs.Bodies.{member_name};

    /// The member's name.
    pub fn as_str(self) -> &'static str
        ensures { result.now ≡ member_name self }
    {
        match self {
            BodyMember::Kind => "kind",
            BodyMember::Name => "name",
            BodyMember::Limit => "limit",
            BodyMember::Queues => "queues",
            BodyMember::Error => "error",
            BodyMember::Message => "message",
            BodyMember::Jobs => "jobs",
        }
    }
}

/// Why a request asks for no command.
#[derive(Drop)]
pub(crate) enum NoCommand {
    /// There is no such path.
    NoPath,
    /// The path doesn't take the method.
    OtherMethod,
    /// The body has a fault.
    Body(BodyFault),
    /// There was no memory.
    NoMemory,
}

impl From<NoMemory> for NoCommand {
    ghost use Rattle.std.specs.Prelude.{◌≡◌};
    ghost use Rattle.queue_routes.specs.declared.fault.NoCommand.TheVariants as cause;

    ghost from_gives = { λ _ e. e ≡ cause.NoMemory };

    fn from(_: NoMemory) -> Self {
        NoCommand::NoMemory
    }
}

impl From<AllocError> for NoCommand {
    ghost use Rattle.std.specs.Prelude.{◌≡◌};
    ghost use Rattle.queue_routes.specs.declared.fault.NoCommand.TheVariants as cause;

    ghost from_gives = { λ _ e. e ≡ cause.NoMemory };

    fn from(_: AllocError) -> Self {
        NoCommand::NoMemory
    }
}

impl<T: Drop> From<AllocFailed<T>> for NoCommand {
    ghost use Rattle.std.specs.Prelude.{◌≡◌};
    ghost use Rattle.queue_routes.specs.declared.fault.NoCommand.TheVariants as cause;

    ghost from_gives = { λ _ e. e ≡ cause.NoMemory };

    fn from(_: AllocFailed<T>) -> Self {
        NoCommand::NoMemory
    }
}
