ghost use Rattle.queue_config.specs.Ranges.{IsConfig};

use crate::tables::{name, row, same, text};
use job_states::{Arg, Counted, Name};
use queue_config::{Act, Config, KeyFault, SettingsFault};
use std::alloc::{AllocError, Global};
use std::process::Abort;
use std::slice;

/// What comes of settings.
fn outcome(alloc: Global, text: &[u8]) -> Result<String, AllocError> {
    match Config::read(alloc, text) {
        Ok(_) => "accepted".to_string(alloc),
        Err(SettingsFault::Refused { number, key }) => format!(in alloc; "{number} {key}"),
        Err(SettingsFault::NoMemory) => "no memory".to_string(alloc),
    }
}

fn expect(rt: &impl Abort, alloc: Global, text: &[u8], expected: &str, of: &str) {
    let found = outcome(alloc, text).expect(rt, "memory");
    same(rt, found.as_str(), expected, of);
}

/// Settings with ` / ` for the ends of their lines and `~` for 64 letters, ` => `, and what comes of them.
const SETTINGS: &str = r#" => accepted
# only a comment => accepted
classes = [] / errors = [] / tasks = [] / workers = [] => accepted
[dispatcher] / batch_size = 1 / polling_ms = 1 / maintenance = 1 => accepted
dispatcher = { batch_size = 500, polling_ms = 3600000, maintenance = 86400 } => accepted
[jobs] / kept_max = 1 / clear_after = 0 => accepted
[jobs] / kept_max = 250_000 / clear_after = 31_536_000 => accepted
[processes] / heartbeat = 1 / alive_threshold = 1 => accepted
[processes] / heartbeat = 86400 / alive_threshold = 86400 => accepted
[dispatcher] / batch_size = 0 => 5 dispatcher.batch_size
[dispatcher] / batch_size = 501 => 5 dispatcher.batch_size
[dispatcher] / polling_ms = 0 => 5 dispatcher.polling_ms
[dispatcher] / polling_ms = 3600001 => 5 dispatcher.polling_ms
[dispatcher] / maintenance = 0 => 5 dispatcher.maintenance
[dispatcher] / maintenance = 86401 => 5 dispatcher.maintenance
[jobs] / kept_max = 0 => 5 jobs.kept_max
[jobs] / kept_max = 250001 => 5 jobs.kept_max
[jobs] / clear_after = -1 => 5 jobs.clear_after
[jobs] / clear_after = 31536001 => 5 jobs.clear_after
[processes] / heartbeat = 0 => 5 processes.heartbeat
[processes] / heartbeat = 86401 => 5 processes.heartbeat
[processes] / alive_threshold = 0 => 5 processes.alive_threshold
[processes] / alive_threshold = 86401 => 5 processes.alive_threshold
[dispatcher] / batch_size = 1.0 => 4 dispatcher.batch_size
[dispatcher] / batch_size = 501 / polling_ms = "1" => 5 dispatcher.batch_size
[jobs] / kept_max = [] => 4 jobs.kept_max
[jobs] / clear_after = 2024-01-01T00:00:00Z => 4 jobs.clear_after
[processes] / heartbeat = {} => 4 processes.heartbeat
[jobs] / kept_max = 9223372036854775807 => 5 jobs.kept_max
[jobs] / [jobs] => 1 document
jobs.kept_max = 1 / jobs.kept_max = 1 => 1 document
[jobs => 1 document
kept_max = 01 => 1 document
[jobs] / kept_max = 9223372036854775808 => 1 document
colour = 1 / [[classes]] / colour = 1 => 2 colour
classes = 1 / bolours = 1 / colours = 1 => 2 bolours
"the colour" = 1 => 2 the colour
[jobs] / zeal = 1 / ardour = 1 / kept_max = 0 => 2 jobs.ardour
[processes] / colour = 1 / [jobs] / colour = 1 => 2 jobs.colour
[dispatcher] / colour = 1 => 2 dispatcher.colour
[[classes]] / name = "A" / colour = 1 => 2 classes[0].colour
[[classes]] / name = "A" / limit = { key = "", colour = 1 } => 2 classes[0].limit.colour
[[classes]] / name = "A" / rules = [{ on = ["E"], do = "retry" }, { colour = 1 }] => 2 classes[0].rules[1].colour
[[errors]] / colour = 1 => 2 errors[0].colour
[[tasks]] / colour = 1 => 2 tasks[0].colour
[[workers]] / threads = 0 / colour = 1 => 2 workers[0].colour
[[classes]] => 3 classes[0].name
[[classes]] / name = "A" / [[classes]] / limit = 1 => 3 classes[1].name
[[classes]] / name = "A" / limit = { to = 0 } => 3 classes[0].limit.key
[[classes]] / name = "A" / rules = [{ do = "retry" }] => 3 classes[0].rules[0].on
[[classes]] / name = "A" / rules = [{ on = ["E"], wait = true }] => 3 classes[0].rules[0].do
[[errors]] / parent = "" => 3 errors[0].name
[[tasks]] / class = 1 => 3 tasks[0].key
[[tasks]] / key = "T" => 3 tasks[0].class
[[tasks]] / key = "T" / class = "A" / queue = 1 => 3 tasks[0].schedule
classes = 1 => 4 classes
classes = [1] => 4 classes[0]
errors = 1 => 4 errors
errors = [1] => 4 errors[0]
tasks = 1 => 4 tasks
tasks = [1] => 4 tasks[0]
workers = 1 => 4 workers
workers = [1] => 4 workers[0]
classes = { name = "A" } => 4 classes
classes = [{ name = "A" }, 1] / dispatcher = 1 => 4 classes[1]
dispatcher = [] => 4 dispatcher
[[jobs]] / kept_max = 1 => 4 jobs
processes = 2024-01-01 => 4 processes
[[classes]] / name = ["A"] => 4 classes[0].name
[[classes]] / name = "A" / limit = 1 => 4 classes[0].limit
[[classes]] / name = "A" / rules = {} => 4 classes[0].rules
[[classes]] / name = "A" / rules = [[]] => 4 classes[0].rules[0]
[[errors]] / name = 1 => 4 errors[0].name
[[errors]] / name = "E" / parent = 1 => 4 errors[0].parent
[[classes]] / name = "A" / limit = { key = "k" } / [[classes]] / name = "a" => accepted
classes = [{ name = "A", limit = { key_argument = 15, group = "G", to = 65535, duration = 31536000, on_conflict = "discard" } }] => accepted
classes = [{ name = "~~", limit = { key_argument = 0, to = 1, duration = 1, on_conflict = "block" } }] => accepted
[[classes]] / name = "" => 5 classes[0].name
[[classes]] / name = "~~x" => 5 classes[0].name
[[classes]] / name = "A" / limit = { group = 1, to = 0 } => 4 classes[0].limit.group
[[classes]] / name = "A" / limit = { group = "", key = 1 } => 5 classes[0].limit.group
[[classes]] / name = "A" / limit = { group = "~~x", key = "k" } => 5 classes[0].limit.group
[[classes]] / name = "A" / limit = { key = 1 } => 4 classes[0].limit.key
[[classes]] / name = "A" / limit = { key = "" } => 5 classes[0].limit.key
[[classes]] / name = "A" / limit = { key = "~~x" } => 5 classes[0].limit.key
[[classes]] / name = "A" / limit = { key = "", key_argument = "0" } => 5 classes[0].limit.key
[[classes]] / name = "A" / limit = { key = "k", key_argument = "0" } => 4 classes[0].limit.key_argument
[[classes]] / name = "A" / limit = { key = "k", key_argument = 0 } => 5 classes[0].limit.key_argument
[[classes]] / name = "A" / limit = { key = "k", key_argument = 16 } => 5 classes[0].limit.key_argument
[[classes]] / name = "A" / limit = { key_argument = -1 } => 5 classes[0].limit.key_argument
[[classes]] / name = "A" / limit = { key_argument = 16 } => 5 classes[0].limit.key_argument
[[classes]] / name = "A" / limit = { key_argument = "0" } => 4 classes[0].limit.key_argument
[[classes]] / name = "A" / limit = { key = "k", to = 0 } => 5 classes[0].limit.to
[[classes]] / name = "A" / limit = { key = "k", to = 65536 } => 5 classes[0].limit.to
[[classes]] / name = "A" / limit = { key = "k", duration = 0 } => 5 classes[0].limit.duration
[[classes]] / name = "A" / limit = { key = "k", duration = 31536001 } => 5 classes[0].limit.duration
[[classes]] / name = "A" / limit = { key = "k", duration = "1", on_conflict = 1 } => 4 classes[0].limit.duration
[[classes]] / name = "A" / limit = { key = "k", on_conflict = 1 } => 4 classes[0].limit.on_conflict
[[classes]] / name = "A" / limit = { key = "k", on_conflict = "Discard" } => 5 classes[0].limit.on_conflict
[[classes]] / name = "A" / limit = { key = "k", on_conflict = "" } => 5 classes[0].limit.on_conflict
[[classes]] / name = "A" / rules = [{ on = ["E"], do = "retry" }, { on = ["E", "F"], do = "discard" }] => accepted
[[classes]] / name = "A" / rules = [{ on = ["E"], do = "retry", wait = 0, attempts = 1 }, { on = ["E"], do = "retry", wait = 31536000, attempts = 65535 }] => accepted
[[classes]] / name = "A" / rules = [{ on = ["E"], do = "retry", wait = "polynomially_longer", attempts = "unlimited" }] => accepted
[[classes]] / name = "A" / rules = [{ on = "E" }] => 4 classes[0].rules[0].on
[[classes]] / name = "A" / rules = [{ on = [], do = 1 }] => 5 classes[0].rules[0].on
[[classes]] / name = "A" / rules = [{ on = [1, "", 1, 1, 1, 1, 1, 1, 1] }] => 5 classes[0].rules[0].on
[[classes]] / name = "A" / rules = [{ on = ["", 1] }] => 4 classes[0].rules[0].on
[[classes]] / name = "A" / rules = [{ on = ["E", ""] }] => 5 classes[0].rules[0].on
[[classes]] / name = "A" / rules = [{ on = ["~~x"] }] => 5 classes[0].rules[0].on
[[classes]] / name = "A" / rules = [{ on = ["~~", "~~", "~~", "~~", "~~", "~~", "~~", "~~"] }] => 5 classes[0].rules[0].on
[[classes]] / name = "A" / rules = [{ on = ["E"], do = 1 }] => 4 classes[0].rules[0].do
[[classes]] / name = "A" / rules = [{ on = ["E"], do = "Retry" }] => 5 classes[0].rules[0].do
[[classes]] / name = "A" / rules = [{ on = ["E"], do = "" }] => 5 classes[0].rules[0].do
[[classes]] / name = "A" / rules = [{ on = ["E"], do = "retry", wait = -1 }] => 5 classes[0].rules[0].wait
[[classes]] / name = "A" / rules = [{ on = ["E"], do = "retry", wait = 31536001 }] => 5 classes[0].rules[0].wait
[[classes]] / name = "A" / rules = [{ on = ["E"], do = "retry", wait = "unlimited" }] => 5 classes[0].rules[0].wait
[[classes]] / name = "A" / rules = [{ on = ["E"], do = "retry", wait = true }] => 4 classes[0].rules[0].wait
[[classes]] / name = "A" / rules = [{ on = ["E"], do = "discard", wait = true }] => 4 classes[0].rules[0].wait
[[classes]] / name = "A" / rules = [{ on = ["E"], do = "discard", wait = 3 }] => 5 classes[0].rules[0].wait
[[classes]] / name = "A" / rules = [{ on = ["E"], do = "discard", wait = "polynomially_longer" }] => 5 classes[0].rules[0].wait
[[classes]] / name = "A" / rules = [{ on = ["E"], do = "retry", attempts = 0 }] => 5 classes[0].rules[0].attempts
[[classes]] / name = "A" / rules = [{ on = ["E"], do = "retry", attempts = 65536 }] => 5 classes[0].rules[0].attempts
[[classes]] / name = "A" / rules = [{ on = ["E"], do = "retry", attempts = "polynomially_longer" }] => 5 classes[0].rules[0].attempts
[[classes]] / name = "A" / rules = [{ on = ["E"], do = "retry", attempts = [] }] => 4 classes[0].rules[0].attempts
[[classes]] / name = "A" / rules = [{ on = ["E"], do = "discard", attempts = 5 }] => 5 classes[0].rules[0].attempts
[[classes]] / name = "A" / rules = [{ on = ["E"], do = "discard", attempts = "unlimited" }] => 5 classes[0].rules[0].attempts
[[classes]] / name = "A" / rules = [{ on = ["E"], do = "discard" }, { on = ["E"], do = "discard" }, { on = ["E"], do = "discard" }, { on = ["E"], do = "discard" }, { on = ["E"], do = "discard" }, { on = ["E"], do = "discard" }, { on = ["E"], do = "discard" }, { on = ["E"], do = "discard" }, { on = ["E"], do = "discard" }, { on = ["E"], do = "discard" }, { on = ["E"], do = "discard" }, { on = ["E"], do = "discard" }, { on = ["E"], do = "discard" }, { on = ["E"], do = "discard" }, { on = ["E"], do = "discard" }, { on = ["E"], do = "discard" }] => accepted
[[classes]] / name = "A" / rules = [{ on = ["E"], do = "discard" }, { on = ["E"], do = "discard" }, { on = ["E"], do = "discard" }, { on = ["E"], do = "discard" }, { on = ["E"], do = "discard" }, { on = ["E"], do = "discard" }, { on = ["E"], do = "discard" }, { on = ["E"], do = "discard" }, { on = ["E"], do = "discard" }, { on = ["E"], do = "discard" }, { on = ["E"], do = "discard" }, { on = ["E"], do = "discard" }, { on = ["E"], do = "discard" }, { on = ["E"], do = "discard" }, { on = ["E"], do = "discard" }, { on = ["E"], do = "discard" }, { 1 = 1 }] => 5 classes[0].rules
errors = [{ name = "E" }, { name = "F", parent = "E" }] => accepted
errors = [{ name = "E", parent = "StandardError" }, { name = "F", parent = "~~" }] => accepted
[[errors]] / name = "" => 5 errors[0].name
errors = [{ name = "~~x", parent = 1 }] => 5 errors[0].name
[[errors]] / name = "StandardError" / parent = 1 => 5 errors[0].name
errors = [{ name = "E" }, { name = "StandardError" }] => 5 errors[1].name
[[errors]] / name = "E" / parent = "" => 5 errors[0].parent
[[errors]] / name = "E" / parent = "~~x" => 5 errors[0].parent
classes = [{ name = "A" }] / tasks = [{ key = "T", class = "A", schedule = "every minute" }] => accepted
classes = [{ name = "A" }] / tasks = [{ key = "T", class = "A", schedule = "every minute", queue = "q", priority = -2147483648, args = ["x", 1, true] }] => accepted
classes = [{ name = "A" }] / tasks = [{ key = "T", class = "A", schedule = "0 0 13 * 5", queue = "~~", priority = 2147483647, args = [] }] => accepted
classes = [{ name = "A" }] / tasks = [{ key = "", class = "A", schedule = "every minute" }] => 5 tasks[0].key
tasks = [{ key = "T", class = "" }] => 5 tasks[0].class
tasks = [{ key = "~~x" }] => 5 tasks[0].key
tasks = [{ key = "T", class = "~~x" }] => 5 tasks[0].class
tasks = [{ key = 1 }] => 4 tasks[0].key
tasks = [{ key = "T", class = 1 }] => 4 tasks[0].class
classes = [{ name = "A" }] / tasks = [{ key = "T", class = "A", schedule = 1 }] => 4 tasks[0].schedule
classes = [{ name = "A" }] / tasks = [{ key = "T", class = "A", schedule = "every week", queue = 1 }] => 5 tasks[0].schedule
classes = [{ name = "A" }] / tasks = [{ key = "T", class = "A", schedule = "0 24 * * *", queue = 1 }] => 5 tasks[0].schedule
classes = [{ name = "A" }] / tasks = [{ key = "T", class = "A", schedule = "every minute", queue = 1 }] => 4 tasks[0].queue
classes = [{ name = "A" }] / tasks = [{ key = "T", class = "A", schedule = "every minute", queue = "" }] => 5 tasks[0].queue
classes = [{ name = "A" }] / tasks = [{ key = "T", class = "A", schedule = "every minute", queue = "~~x" }] => 5 tasks[0].queue
classes = [{ name = "A" }] / tasks = [{ key = "T", class = "A", schedule = "every minute", priority = -2147483649 }] => 5 tasks[0].priority
classes = [{ name = "A" }] / tasks = [{ key = "T", class = "A", schedule = "every minute", priority = 2147483648 }] => 5 tasks[0].priority
classes = [{ name = "A" }] / tasks = [{ key = "T", class = "A", schedule = "every minute", priority = 0.0 }] => 4 tasks[0].priority
classes = [{ name = "A" }] / tasks = [{ key = "T", class = "A", schedule = "every minute", args = 1 }] => 4 tasks[0].args
classes = [{ name = "A" }] / tasks = [{ key = "T", class = "A", schedule = "every minute", args = ["x", 1.5] }] => 4 tasks[0].args
classes = [{ name = "A" }] / tasks = [{ key = "T", class = "A", schedule = "every minute", args = [[]] }] => 4 tasks[0].args
classes = [{ name = "A" }] / tasks = [{ key = "T", class = "A", schedule = "every minute", args = [2024-01-01] }] => 4 tasks[0].args
classes = [{ name = "A", limit = { key_argument = 1 } }] / tasks = [{ key = "T", class = "A", schedule = "every minute", args = [true, "k", true] }] => accepted
classes = [{ name = "A", limit = { key_argument = 1 } }] / tasks = [{ key = "T", class = "A", schedule = "every minute", args = [true, 0] }] => accepted
classes = [{ name = "A", limit = { key_argument = 1 } }] / tasks = [{ key = "T", class = "A", schedule = "every minute", args = [true] }] => accepted
classes = [{ name = "A", limit = { key_argument = 1 } }] / tasks = [{ key = "T", class = "A", schedule = "every minute", args = [1, true] }] => 5 tasks[0].args
classes = [{ name = "A", limit = { key_argument = 1 } }] / tasks = [{ key = "T", class = "A", schedule = "every minute", args = [1, ""] }] => 5 tasks[0].args
classes = [{ name = "A", limit = { key_argument = 1 } }] / tasks = [{ key = "T", class = "A", schedule = "every minute", args = [1, "~~x"] }] => 5 tasks[0].args
classes = [{ name = "A" }] / tasks = [{ key = "T", class = "A", schedule = "every minute", args = ["~~~~~~~~~~~~~~~~~~~~~~~~~~~~~~~~~~~~~~~~~~~~~~~~~~~~~~~~~~~~~~~xxxxxxxxxxxxxxxxxxxxxxxxxxxxxxxxxxxxxxxxxxxxxxxxxxxxxxxxxxxx"] }] => accepted
classes = [{ name = "A" }] / tasks = [{ key = "T", class = "A", schedule = "every minute", args = ["~~~~~~~~~~~~~~~~~~~~~~~~~~~~~~~~~~~~~~~~~~~~~~~~~~~~~~~~~~~~~~~xxxxxxxxxxxxxxxxxxxxxxxxxxxxxxxxxxxxxxxxxxxxxxxxxxxxxxxxxxxxx"] }] => 5 tasks[0].args
classes = [{ name = "A" }] / tasks = [{ key = "T", class = "A", schedule = "every minute", args = ["~~~~~~~~~~~~~~~~~~~~~~~~~~~~~~~~~~~~~~~~~~~~~~~~~~~~~~~~~~~~~~~xxxxxxxxxxxxxxxxxxxxxxxxxxxxxxxxxxxxxxxxxxxxxxxxxxxxxxxxxxx\""] }] => 5 tasks[0].args
[[workers]] => accepted
workers = [{ queues = "a,b", threads = 1, claim = 1, polling_ms = 1 }, { queues = ["a", "b*"], threads = 31, claim = 100, polling_ms = 3600000 }] => accepted
workers = [{ queues = ["~~"], threads = 32 }] => accepted
workers = [{ queues = 1 }] => 4 workers[0].queues
workers = [{ queues = "", threads = 0 }] => 5 workers[0].queues
workers = [{ queues = "~~x" }] => 5 workers[0].queues
workers = [{ queues = [] }] => 5 workers[0].queues
workers = [{ queues = ["a", ""] }] => 5 workers[0].queues
workers = [{ queues = ["", 1] }] => 4 workers[0].queues
workers = [{ queues = [1, 1, 1, 1, 1, 1, 1, 1, 1, 1, 1, 1, 1, 1, 1, 1, 1, 1, 1, 1, 1, 1, 1, 1, 1, 1, 1, 1, 1, 1, 1, 1, 1, 1, 1, 1, 1, 1, 1, 1, 1, 1, 1, 1, 1, 1, 1, 1, 1, 1, 1, 1, 1, 1, 1, 1, 1, 1, 1, 1, 1, 1, 1, 1, 1] }] => 5 workers[0].queues
workers = [{ threads = 0 }] => 5 workers[0].threads
workers = [{ threads = 33 }] => 5 workers[0].threads
workers = [{ threads = "3" }] => 4 workers[0].threads
workers = [{ claim = 0 }] => 5 workers[0].claim
workers = [{ claim = 101 }] => 5 workers[0].claim
workers = [{ claim = [] }] => 4 workers[0].claim
workers = [{ polling_ms = 0 }] => 5 workers[0].polling_ms
workers = [{ polling_ms = 3600001 }] => 5 workers[0].polling_ms
workers = [{ polling_ms = "" }] => 4 workers[0].polling_ms
workers = [{ queues = ["q", "q", "q", "q", "q", "q", "q", "q", "q", "q", "q", "q", "q", "q", "q", "q", "q", "q", "q", "q", "q", "q", "q", "q", "q", "q", "q", "q", "q", "q", "q", "q", "q", "q", "q", "q", "q", "q", "q", "q", "q", "q", "q", "q", "q", "q", "q", "q", "q", "q", "q", "q", "q", "q", "q", "q", "q", "q", "q", "q", "q", "q", "q", "q"] }] => accepted
workers = [{ threads = 30 }, { claim = 0 }] => 5 workers[1].threads
workers = [{ threads = 29 }, {}, { threads = 1, claim = 0 }] => 5 workers[2].threads
classes = [{ name = "A" }, { name = "A" }] / jobs = 1 => 4 jobs
classes = [{ name = "A" }, { name = "B" }, { name = "B" }, { name = "A" }] => 6 classes[2].name
errors = [{ name = "E" }, { name = "E" }] / classes = [{ name = "A" }, { name = "A" }] => 6 classes[1].name
errors = [{ name = "F" }, { name = "E" }, { name = "E", parent = "E" }] / tasks = [{ key = "T", class = "A", schedule = "every day" }, { key = "T", class = "A", schedule = "every day" }] => 6 errors[2].name
tasks = [{ key = "T", class = "A", schedule = "every day" }, { key = "U", class = "A", schedule = "every day" }, { key = "T", class = "A", schedule = "every day" }] => 6 tasks[2].key
errors = [{ name = "E", parent = "E" }] / tasks = [{ key = "T", class = "A", schedule = "every day" }] => 7 tasks[0].class
classes = [{ name = "A" }] / tasks = [{ key = "T", class = "A", schedule = "every day" }, { key = "U", class = "B", schedule = "every day" }, { key = "V", class = "B", schedule = "every day" }] => 7 tasks[1].class
errors = [{ name = "E", parent = "E" }] => 8 errors[0].parent
errors = [{ name = "D", parent = "E" }, { name = "E", parent = "F" }, { name = "F", parent = "G" }, { name = "G", parent = "E" }] => 8 errors[1].parent
errors = [{ name = "E", parent = "E" }] / classes = [{ name = "A", limit = { key = "k", group = "G" } }, { name = "B", limit = { key = "k", group = "G", to = 2 } }] => 8 errors[0].parent
classes = [{ name = "A", limit = { key = "k", group = "G" } }, { name = "B", limit = { key = "k", group = "G", to = 2 } }] => 9 classes[1].limit
classes = [{ name = "A", limit = { key = "k" } }, { name = "C" }, { name = "B", limit = { key = "l", group = "A", duration = 181 } }, { name = "D", limit = { key = "l", group = "A", to = 2 } }] => 9 classes[2].limit
classes = [{ name = "A", limit = { key = "k", group = "G" } }, { name = "B", limit = { key_argument = 0, group = "G", on_conflict = "discard" } }, { name = "G", limit = { key = "k", group = "H", to = 2 } }] => accepted"#;

/// Some of a table, and one more.
fn expect_most(rt: &impl Abort, alloc: Global, table: &str, missing: &str) {
    let most = table.repeat(alloc, 1024).expect(rt, "memory");
    expect(rt, alloc, most.as_bytes(), missing, table);
    let more = table.repeat(alloc, 1025).expect(rt, "memory");
    let found = outcome(alloc, more.as_bytes()).expect(rt, "memory");
    assert!(rt; found.as_str().starts_with("5 "), "{table}");
}

/// The table with so many letters for each `~`.
fn with_letters(rt: &impl Abort, alloc: Global, table: &str, count: usize) -> String {
    let letters = "x".repeat(alloc, count).expect(rt, "memory");
    table
        .replace(alloc, "~", letters.as_str())
        .expect(rt, "memory")
}

#[test]
fn settings_are_accepted_or_refused_by_their_tables(rt: HostRuntime) {
    let alloc = rt.alloc();
    let table = with_letters(&rt, alloc, SETTINGS, 64);
    for line in table.as_str().lines() {
        let (settings, expected) = row(&rt, line);
        let lines = settings.replace(alloc, " / ", "\n").expect(&rt, "memory");
        expect(&rt, alloc, lines.as_bytes(), expected, settings);
    }
}

#[test]
fn settings_have_at_most_1024_tables_of_a_kind(rt: HostRuntime) {
    expect_most(&rt, rt.alloc(), "[[classes]]\n", "3 classes[0].name");
    expect_most(&rt, rt.alloc(), "[[errors]]\n", "3 errors[0].name");
    expect_most(&rt, rt.alloc(), "[[tasks]]\n", "3 tasks[0].key");
}

#[test]
fn settings_are_utf_8_and_have_at_most_1048576_bytes(rt: HostRuntime) {
    let alloc = rt.alloc();
    expect(&rt, alloc, b"\xff", "1 document", "no UTF-8");
    let most = "\n".repeat(alloc, 1_048_576).expect(&rt, "memory");
    expect(&rt, alloc, most.as_bytes(), "accepted", "the most bytes");
    let more = "=".repeat(alloc, 1_048_577).expect(&rt, "memory");
    expect(&rt, alloc, more.as_bytes(), "10 length", "one byte more");
}

const RULES: &[u8] = br#"
errors = [{ name = "Timeout", parent = "NetError" }, { name = "NetError", parent = "IoError" }, { name = "IoError" }]
[[classes]]
name = "R"
rules = [{ on = ["NetError"], do = "retry", wait = "polynomially_longer", attempts = 4 }]
[[classes]]
name = "S"
rules = [{ on = ["NetError"], do = "retry" }, { on = ["StandardError"], do = "discard" }]
[[classes]]
name = "T"
rules = [{ on = ["IoError", "Other"], do = "retry", attempts = "unlimited" }, { on = ["Timeout"], do = "retry", wait = 1 }]
"#;

/// The decision as a text: the rule, the count, and the act.
fn decided(
    alloc: Global,
    config: &Config,
    class: &Name,
    error: &Name,
    counted: &Counted,
) -> Result<String, AllocError>
    requires { IsConfig config.now }
{
    let decision = config.decide(class, error, slice::from_ref(counted));
    let (rule, count) = (decision.rule.unwrap_or(99), decision.count);
    match decision.act {
        Act::Fail => format!(in alloc; "{rule} {count} fail"),
        Act::Discard => format!(in alloc; "{rule} {count} discard"),
        Act::Retry { wait } => format!(in alloc; "{rule} {count} {wait}"),
    }
}

/// The class and the error, the list and the count of one that is kept, and the decision; 99 is no rule.
const DECISIONS: &str = "R NetError;[NetError] 0 => 0 1 3000000
R NetError;[NetError] 1 => 0 2 18000000
R NetError;[NetError] 2 => 0 3 83000000
R NetError;[NetError] 3 => 0 4 fail
R NetError;[NetError, Other] 3 => 0 1 3000000
R NetError;[NetErro] 3 => 0 1 3000000
R Timeout;[NetError] 0 => 0 1 3000000
R IoError;[NetError] 0 => 99 0 fail
R Unknown;[NetError] 0 => 99 0 fail
U NetError;[NetError] 0 => 99 0 fail
S NetError;[NetError] 0 => 1 0 discard
S Unknown;[NetError] 0 => 1 0 discard
S StandardError;[NetError] 0 => 1 0 discard
T Timeout;[Timeout] 3 => 1 4 1000000
T Timeout;[Timeout] 4 => 1 5 fail
T NetError;[Timeout] 0 => 0 1 3000000
T Other;[IoError, Other] 65535 => 0 65535 3000000
T IoError;[IoError, Other] 65533 => 0 65534 3000000
T StandardError;[Timeout] 0 => 99 0 fail";

fn expect_decided(rt: &impl Abort, alloc: Global, config: &Config, line: &str)
    requires { IsConfig config.now }
{
    let (question, expected) = row(rt, line);
    let (names, kept) = question.split_once(";").expect(rt, line);
    let (class, error) = names.split_once(" ").expect(rt, line);
    let (list, count) = kept.rsplit_once(" ").expect(rt, line);
    let counted = Counted {
        list: text(rt, alloc, list),
        count: count.parse::<u32>().expect(rt, line),
    };
    let class = name(rt, alloc, class);
    let error = name(rt, alloc, error);
    let found = decided(alloc, config, &class, &error, &counted).expect(rt, "memory");
    same(rt, found.as_str(), expected, question);
}

#[test]
fn errors_are_decided_by_the_last_rule_that_fits(rt: HostRuntime) {
    let alloc = rt.alloc();
    let config = Config::read(alloc, RULES).expect(&rt, "settings");
    for line in DECISIONS.lines() {
        expect_decided(&rt, alloc, &config, line);
    }
}

const LIMITS: &[u8] = br#"
classes = [
    { name = "A" },
    { name = "B", limit = { key_argument = 0 } },
    { name = "C", limit = { key = "k", on_conflict = "discard", to = 2, duration = 1, group = "G" } },
    { name = "D", limit = { key_argument = 1 } },
]
"#;

/// The limit on a job with this argument as a text.
fn limited(alloc: Global, config: &Config, class: &Name, arg: &Arg) -> Result<String, AllocError>
    requires { IsConfig config.now }
{
    match config.limited(alloc, class, slice::from_ref(arg)) {
        Ok(None) => "none".to_string(alloc),
        Ok(Some(limited)) => {
            let (to, duration, discard) = (limited.to, limited.duration, limited.discard);
            let key = limited.key.as_str();
            format!(in alloc; "{key} {to} {duration} {discard}")
        }
        Err(KeyFault::Refused) => "refused".to_string(alloc),
        Err(KeyFault::NoMemory) => "no memory".to_string(alloc),
    }
}

/// Classes, arguments of their jobs, and keys; `~` stands for 128 letters.
const KEYS: &str = "B 'x' => B/x 1 180000000 false
B '~' => B/~ 1 180000000 false
B '~x' => refused
B '' => refused
B -9223372036854775808 => B/-9223372036854775808 1 180000000 false
B 18446744073709551615 => B/18446744073709551615 1 180000000 false
B null => none
B other => refused
A 1 => none
A other => none
Z 1 => none
Z other => none
C 1 => G/k 2 1000000 true
C other => G/k 2 1000000 true
D 1 => none
D other => none";

fn arg_of(rt: &impl Abort, alloc: Global, shown: &str) -> Arg {
    match shown {
        "null" => Arg::Null,
        "other" => Arg::Other,
        _ if shown.starts_with('\'') => Arg::Text(text(rt, alloc, shown.trim_matches('\''))),
        _ => Arg::Whole(shown.parse::<i128>().expect(rt, shown)),
    }
}

fn expect_key(rt: &impl Abort, alloc: Global, config: &Config, line: &str)
    requires { IsConfig config.now }
{
    let (question, expected) = row(rt, line);
    let (class, arg) = question.split_once(" ").expect(rt, line);
    let class = name(rt, alloc, class);
    let arg = arg_of(rt, alloc, arg);
    let found = limited(alloc, config, &class, &arg).expect(rt, "memory");
    same(rt, found.as_str(), expected, question);
}

#[test]
fn keys_come_from_the_settings_or_an_argument(rt: HostRuntime) {
    let alloc = rt.alloc();
    let config = Config::read(alloc, LIMITS).expect(&rt, "settings");
    let table = with_letters(&rt, alloc, KEYS, 128);
    for line in table.as_str().lines() {
        expect_key(&rt, alloc, &config, line);
    }
}
