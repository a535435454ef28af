/// The members of an envelope that are read, in the order in which they are judged.
#[derive(Clone, Copy, Debug)]
pub enum Member {
    JobClass,
    JobId,
    QueueName,
    Priority,
    Arguments,
    Executions,
    ExceptionExecutions,
    ScheduledAt,
}

impl Member {
    ghost use Rattle.std.specs.Prelude.{◌≡◌};
    ghost use Rattle.job_envelope.specs.Member.{member_name};

    /// The member's name in the envelope.
    pub fn as_str(self) -> &'static str
        ensures { result.now ≡ member_name self }
    {
        match self {
            Member::JobClass => "job_class",
            Member::JobId => "job_id",
            Member::QueueName => "queue_name",
            Member::Priority => "priority",
            Member::Arguments => "arguments",
            Member::Executions => "executions",
            Member::ExceptionExecutions => "exception_executions",
            Member::ScheduledAt => "scheduled_at",
        }
    }
}
