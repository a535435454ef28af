//! The keys of whole numbers.

use toml_members::Whole;

pub(crate) const KEY_ARGUMENT: Whole = Whole {
    name: "key_argument",
    least: 0,
    most: 15,
    default: 0,
};

pub(crate) const TO: Whole = Whole {
    name: "to",
    least: 1,
    most: 65_535,
    default: 1,
};

pub(crate) const DURATION: Whole = Whole {
    name: "duration",
    least: 1,
    most: 31_536_000,
    default: 180,
};

pub(crate) const WAIT: Whole = Whole {
    name: "wait",
    least: 0,
    most: 31_536_000,
    default: 3,
};

pub(crate) const ATTEMPTS: Whole = Whole {
    name: "attempts",
    least: 1,
    most: 65_535,
    default: 5,
};

pub(crate) const BATCH_SIZE: Whole = Whole {
    name: "batch_size",
    least: 1,
    most: 500,
    default: 500,
};

pub(crate) const POLLING_MS: Whole = Whole {
    name: "polling_ms",
    least: 1,
    most: 3_600_000,
    default: 1000,
};

pub(crate) const MAINTENANCE: Whole = Whole {
    name: "maintenance",
    least: 1,
    most: 86_400,
    default: 600,
};

pub(crate) const KEPT_MAX: Whole = Whole {
    name: "kept_max",
    least: 1,
    most: 250_000,
    default: 250_000,
};

pub(crate) const CLEAR_AFTER: Whole = Whole {
    name: "clear_after",
    least: 0,
    most: 31_536_000,
    default: 86_400,
};

pub(crate) const HEARTBEAT: Whole = Whole {
    name: "heartbeat",
    least: 1,
    most: 86_400,
    default: 60,
};

pub(crate) const ALIVE_THRESHOLD: Whole = Whole {
    name: "alive_threshold",
    least: 1,
    most: 86_400,
    default: 300,
};

pub(crate) const PRIORITY: Whole = Whole {
    name: "priority",
    least: -2_147_483_648,
    most: 2_147_483_647,
    default: 0,
};

pub(crate) const THREADS: Whole = Whole {
    name: "threads",
    least: 1,
    most: 32,
    default: 3,
};

pub(crate) const CLAIM: Whole = Whole {
    name: "claim",
    least: 1,
    most: 100,
    default: 1,
};

pub(crate) const WORKER_POLLING_MS: Whole = Whole {
    name: "polling_ms",
    least: 1,
    most: 3_600_000,
    default: 100,
};
