use crate::tables::{row, same};
use cron_lines::{Schedule, ScheduleFault};
use job_states::LAST;
use std::alloc::Global;
use std::process::Abort;

/// A schedule and a moment, and the last moment up to it at which the schedule was due. Worked out with another language's
/// calendar.
const LAST_RUNS: &str = "0 0 13 * 5 @ 1772755205000000 => 1772755200000000
0 0 13 * 5 @ 1772755199999999 => 1772150400000000
0 0 31 2 * @ 1772755205000000 => never
every hour at minute 5 @ 299999999 => never
every hour at minute 5 @ 300000000 => 300000000
at 12pm every day @ 43200000000 => 43200000000
at 12pm every day @ 43199999999 => never
0 0 29 2 * @ 1772755200000000 => 1709164800000000
0 0 29 2 * @ 4233686399000000 => 3981312000000000
0 0 29 2 * @ 951782400000000 => 951782400000000
*/15 9-17 * * mon-fri @ 1772971200000000 => 1772819100000000
*/15 9-17 * * mon-fri @ 1772819100000000 => 1772819100000000
*/15 9-17 * * Mon-FRI @ 1772788499000000 => 1772787600000000
0 0 * * 7 @ 1772924400000000 => 1772323200000000
0 0 * * 0 @ 1772928000000000 => 1772928000000000
30 6 * * 5-7 @ 1773014400000000 => 1772951400000000
0 12 * * */3 @ 1772755200000000 => 1772625600000000
0 0 1 jan,jul * @ 1782777600000000 => 1767225600000000
5 4 * * SUN @ 1772755200000000 => 1772337900000000
0 0 */10 * 1 @ 1772928000000000 => 1764547200000000
0 0 * 2 5 @ 1772755200000000 => 1772150400000000
10-30/10,45 */6 * * * @ 1772778000000000 => 1772778000000000
\t 05\t4 * * *  @ 1772755200000000 => 1772683500000000
15 12 29 2 1 @ 1772755200000000 => 1771848900000000
59 23 31 12 * @ 253370764799999999 => 253370764740000000
* * * * * @ 0 => 0
1 0 * * * @ 59999999 => never
0 0 2 1 * @ 86399999999 => never
0 12 */28 2 5 @ 1801483199999999 => 1549022400000000
0 12 */28 2 5 @ 1801483200000000 => never
every second @ 1999999 => 1000000
every minute @ 119999999 => 60000000
every hour @ 1772783940000000 => 1772780400000000
every day @ 1772783940000000 => 1772755200000000
at 12am every day @ 1772783940000000 => 1772755200000000
at 1pm every day @ 1772783940000000 => 1772715600000000
at 11am every day @ 1772794800000000 => 1772794800000000";

/// The last moment of a row, before the arrow.
fn last_run(rt: &impl Abort, alloc: Global, question: &str) -> String {
    let (text, now) = question.rsplit_once(" @ ").expect(rt, question);
    let schedule = Schedule::parse(text).expect(rt, text);
    let now = now.parse::<u64>().expect(rt, now);
    assert!(rt; now <= LAST);
    match schedule.last_at_or_before(now) {
        Some(last) => format!(in alloc; "{last}").expect(rt, "memory"),
        None => String::from_str(alloc, "never").expect(rt, "memory"),
    }
}

#[test]
fn last_run_times(rt: HostRuntime) {
    for line in LAST_RUNS.lines() {
        let (question, expected) = row(&rt, line);
        let found = last_run(&rt, rt.alloc(), question);
        same(&rt, found.as_str(), expected, question);
    }
}

/// What is no schedule, with `~` for a line feed, and the place of the first byte that nothing continues.
const REFUSED: &str = " => 0
    => 3
* * * * => 7
*  * * * * * => 11
0 24 * * * => 2
60 * * * * => 0
* * 0 * * => 4
1-0 * * * * => 0
*/0 * * * * => 0
5/10 * * * * => 0
* * * * fri-sun => 8
* * * * 8 => 8
* * * */jan * => 6
1,,2 * * * * => 0
100 * * * * => 0
* * * JanUARY * => 6
61 * * * * * => 0
* * * 13 => 6
1-2-3 * * * * => 0
~* * * * * => 0
every  minute => 0
 every day => 0
every day  => 0
every\tday => 0
at 13pm every day => 0
at 0am every day => 0
every hour at minute 60 => 0
At 1am every day => 0
* * * * * every => 10";

fn expect_refused(rt: &impl Abort, text: &str, at: &str) {
    let at = at.parse::<usize>().expect(rt, at);
    let fault = Schedule::parse(text).err();
    assert_eq!(rt; fault, Some(ScheduleFault::Refused { at }), "{text}");
}

#[test]
fn places_of_refusals(rt: HostRuntime) {
    for line in REFUSED.lines() {
        let (text, at) = row(&rt, line);
        let text = text.replace(rt.alloc(), "~", "\n").expect(&rt, "memory");
        expect_refused(&rt, text.as_str(), at);
    }
}
