// The exports of the static library for C. Each calls the library's function of the same name, where it is described,
// and states its clauses again. `include/siengulot.h` declares them.
#![tactic(auto)]

ghost use Rattle.bay_log.specs.Answers.{cleared, listed, logged};
ghost use Rattle.board.specs.Answers.{begun};
ghost use Rattle.capture.specs.Answers.{checked, read_back, written};
ghost use Rattle.counted.specs.Answers.{counted_bits};
ghost use Rattle.halfcells.specs.Answers.{decoded, encoded};
ghost use Rattle.line.specs.Answers.{settled, smoothed, warped, warped_by_lengths};
ghost use Rattle.region.specs.Answers.{survey_lines};
ghost use Rattle.sender.specs.Answers.{sent_message, sent_plan};
ghost use Rattle.settings.specs.Answers.{judgement, quiet_judgement};
ghost use Rattle.settings.specs.Margins.{ends, steady};
ghost use Rattle.settings.specs.Survey.{region, surveyed};
ghost use Rattle.siengulot.specs.Crossing.{crossed, crossed_bits, crossing, judged_five, judged_three, numbered};
ghost use Rattle.siengulot.specs.Crossing.{summed};
ghost use Rattle.siengulot.specs.Logs.{cleared_over, leaving};
ghost use Rattle.siengulot.specs.Picking.{PickCrosses};
ghost use Rattle.siengulot.specs.Receivers.{begun_lent, listened_lent, stepped_lent, well_formed_lent};
ghost use Rattle.siengulot.specs.StoredPlans.{joined_over};
ghost use Rattle.siengulot.specs.Surveys.{surveyed_over};
ghost use Rattle.std.specs.Prelude.{[], length, ◌∷◌, ◌≡◌};
ghost use Rattle.stored.specs.Answers.{read_plan};
ghost use Rattle.timecode.specs.Answers.{read_times, write_time};

use measure::{RECORD_BYTES, RECORDS};
use siengulot::{ALL_BYTES, NUMBERS};

#[unsafe(no_mangle)]
pub extern "C" fn siengulot_judge(
    a: usize,
    b: usize,
    g: usize,
    k: usize,
    w: usize,
    r: usize,
    margins: &mut [i64; 3],
    accepted: &mut usize,
) -> usize
    ensures { judged_three (judgement a b g k (steady w r)) margins.old
        ≡ (result, accepted.new, margins.new) }
{
    siengulot::siengulot_judge(a, b, g, k, w, r, margins, accepted)
}

#[unsafe(no_mangle)]
pub extern "C" fn siengulot_judge_ends(
    a: usize,
    b: usize,
    g: usize,
    k: usize,
    w1: usize,
    w2: usize,
    r1: usize,
    r2: usize,
    margins: &mut [i64; 3],
    accepted: &mut usize,
) -> usize
    ensures { judged_three (judgement a b g k (ends w1 w2 r1 r2)) margins.old
        ≡ (result, accepted.new, margins.new) }
{
    siengulot::siengulot_judge_ends(a, b, g, k, w1, w2, r1, r2, margins, accepted)
}

#[unsafe(no_mangle)]
pub extern "C" fn siengulot_judge_quiet(
    a: usize,
    b: usize,
    g: usize,
    k: usize,
    w: usize,
    r: usize,
    q: usize,
    p1: usize,
    margins: &mut [i64; 5],
    accepted: &mut usize,
) -> usize
    ensures { judged_five (quiet_judgement a b g k (steady w r) q p1) margins.old
        ≡ (result, accepted.new, margins.new) }
{
    siengulot::siengulot_judge_quiet(a, b, g, k, w, r, q, p1, margins, accepted)
}

#[unsafe(no_mangle)]
pub extern "C" fn siengulot_judge_quiet_ends(
    a: usize,
    b: usize,
    g: usize,
    k: usize,
    w1: usize,
    w2: usize,
    r1: usize,
    r2: usize,
    q: usize,
    p1: usize,
    margins: &mut [i64; 5],
    accepted: &mut usize,
) -> usize
    ensures { judged_five (quiet_judgement a b g k (ends w1 w2 r1 r2) q p1) margins.old
        ≡ (result, accepted.new, margins.new) }
{
    siengulot::siengulot_judge_quiet_ends(a, b, g, k, w1, w2, r1, r2, q, p1, margins, accepted)
}

#[unsafe(no_mangle)]
pub extern "C" fn siengulot_pick(
    a: usize,
    b: usize,
    g: usize,
    w: usize,
    r: usize,
    k: &mut usize,
) -> usize
    ensures { PickCrosses a b g (steady w r) result k.new }
{
    siengulot::siengulot_pick(a, b, g, w, r, k)
}

#[unsafe(no_mangle)]
pub extern "C" fn siengulot_pick_ends(
    a: usize,
    b: usize,
    g: usize,
    w1: usize,
    w2: usize,
    r1: usize,
    r2: usize,
    k: &mut usize,
) -> usize
    ensures { PickCrosses a b g (ends w1 w2 r1 r2) result k.new }
{
    siengulot::siengulot_pick_ends(a, b, g, w1, w2, r1, r2, k)
}

#[unsafe(no_mangle)]
pub extern "C" fn siengulot_survey(
    a: &[usize],
    b: &[usize],
    g: &[usize],
    k: &[usize],
    w: &[usize],
    r: &[usize],
    margins: &mut [i64; 3],
    places: &mut [usize; 3],
    accepted: &mut usize,
    place: &mut usize,
    count: &mut usize,
) -> usize
    ensures { surveyed_over (length a.now)
        (record { margins = margins.entry.now; places = places.old })
        (surveyed (region a.now b.now g.now k.now w.now
        r.now))
        ≡ (
          (result, place.new, count.new, accepted.new),
          record { margins = margins.exit.now; places = places.new },
        ) }
{
    siengulot::siengulot_survey(a, b, g, k, w, r, margins, places, accepted, place, count)
}

#[unsafe(no_mangle)]
pub extern "C" fn siengulot_survey_lines(
    a: &[usize],
    b: &[usize],
    g: &[usize],
    k: &[usize],
    w: &[usize],
    r: &[usize],
    out: &mut [u8],
    place: &mut usize,
    count: &mut usize,
) -> usize
    ensures { crossing crossed (survey_lines (region a.now b.now g.now
        k.now w.now r.now) out.old)
        ≡ ((result, place.new, count.new), out.new) }
{
    siengulot::siengulot_survey_lines(a, b, g, k, w, r, out, place, count)
}

#[unsafe(no_mangle)]
pub extern "C" fn siengulot_send(
    a: usize,
    b: usize,
    p1: usize,
    bits: &[u8],
    out: &mut [u8],
    place: &mut usize,
    count: &mut usize,
) -> usize
    ensures { crossing crossed (sent_message a b p1 bits.now out.old)
        ≡ ((result, place.new, count.new), out.new) }
{
    siengulot::siengulot_send(a, b, p1, bits, out, place, count)
}

#[unsafe(no_mangle)]
pub extern "C" fn siengulot_plan(
    a: usize,
    b: usize,
    n: usize,
    leads: &[usize],
    bits: &[u8],
    out: &mut [u8],
    place: &mut usize,
    count: &mut usize,
) -> usize
    ensures { crossing crossed
        (sent_plan a b n leads.now bits.now out.old)
        ≡ ((result, place.new, count.new), out.new) }
{
    siengulot::siengulot_plan(a, b, n, leads, bits, out, place, count)
}

#[unsafe(no_mangle)]
pub extern "C" fn siengulot_smooth(
    g: usize,
    wave: &[u8],
    out: &mut [u8],
    place: &mut usize,
    count: &mut usize,
) -> usize
    ensures { crossing crossed (smoothed g wave.now out.old)
        ≡ ((result, place.new, count.new), out.new) }
{
    siengulot::siengulot_smooth(g, wave, out, place, count)
}

#[unsafe(no_mangle)]
pub extern "C" fn siengulot_warp(
    w: usize,
    r: usize,
    p: usize,
    wave: &[u8],
    out: &mut [u8],
    place: &mut usize,
    count: &mut usize,
) -> usize
    ensures { crossing crossed (warped w r p wave.now out.old)
        ≡ ((result, place.new, count.new), out.new) }
{
    siengulot::siengulot_warp(w, r, p, wave, out, place, count)
}

#[unsafe(no_mangle)]
pub extern "C" fn siengulot_warp_by_lengths(
    w1: usize,
    w2: usize,
    r1: usize,
    r2: usize,
    p: usize,
    cycles: &[usize],
    reads: &[usize],
    wave: &[u8],
    out: &mut [u8],
    place: &mut usize,
    count: &mut usize,
) -> usize
    ensures { crossing crossed (warped_by_lengths w1 w2 r1 r2 p cycles.now reads.now
        wave.now out.old)
        ≡ ((result, place.new, count.new), out.new) }
{
    siengulot::siengulot_warp_by_lengths(w1, w2, r1, r2, p, cycles, reads, wave, out, place, count)
}

#[unsafe(no_mangle)]
pub extern "C" fn siengulot_settle(
    reads: &[u8],
    choices: &[u8],
    out: &mut [u8],
    place: &mut usize,
    count: &mut usize,
) -> usize
    ensures { crossing crossed (settled reads.now choices.now out.old)
        ≡ ((result, place.new, count.new), out.new) }
{
    siengulot::siengulot_settle(reads, choices, out, place, count)
}

#[unsafe(no_mangle)]
pub extern "C" fn siengulot_counted(
    k: usize,
    n: usize,
    level: usize,
    reads: &[u8],
    out: &mut [u8],
    place: &mut usize,
    count: &mut usize,
) -> usize
    ensures { crossing crossed_bits (counted_bits k n level reads.now out.old)
        ≡ ((result, place.new, count.new), out.new) }
{
    siengulot::siengulot_counted(k, n, level, reads, out, place, count)
}

#[unsafe(no_mangle)]
pub extern "C" fn siengulot_encode(
    bytes: &[u8],
    out: &mut [u16],
    place: &mut usize,
    count: &mut usize,
) -> usize
    ensures { crossing crossed (encoded bytes.now out.old)
        ≡ ((result, place.new, count.new), out.new) }
{
    siengulot::siengulot_encode(bytes, out, place, count)
}

#[unsafe(no_mangle)]
pub extern "C" fn siengulot_decode(
    words: &[u16],
    out: &mut [u8],
    place: &mut usize,
    count: &mut usize,
) -> usize
    ensures { crossing crossed (decoded words.now out.old)
        ≡ ((result, place.new, count.new), out.new) }
{
    siengulot::siengulot_decode(words, out, place, count)
}

#[unsafe(no_mangle)]
pub extern "C" fn siengulot_read_plan(
    leads: &[usize],
    trails: &[usize],
    out: &mut [usize],
    place: &mut usize,
    count: &mut usize,
    dropped: &mut usize,
) -> usize
    ensures { crossing joined_over
        (read_plan leads.now trails.now out.old)
        ≡ ((result, place.new, count.new, dropped.new), out.new) }
{
    siengulot::siengulot_read_plan(leads, trails, out, place, count, dropped)
}

#[unsafe(no_mangle)]
pub extern "C" fn siengulot_fresh(
    k: usize,
    n: usize,
    q: usize,
    numbers: &mut [usize; NUMBERS],
    bytes: &mut [u8; 128],
) -> usize
    ensures { begun_lent (begun k n q) ≡ (result, numbers.new, bytes.new) }
{
    siengulot::siengulot_fresh(k, n, q, numbers, bytes)
}

#[unsafe(no_mangle)]
pub extern "C" fn siengulot_well_formed(numbers: &[usize; NUMBERS], bytes: &[u8; 128]) -> usize
    ensures { well_formed_lent numbers.now bytes.now ≡ result }
{
    siengulot::siengulot_well_formed(numbers, bytes)
}

#[unsafe(no_mangle)]
pub extern "C" fn siengulot_step(
    numbers: &mut [usize; NUMBERS],
    bytes: &mut [u8; 128],
    read: u8,
    row: &mut [u8; 128],
    event: &mut usize,
    found: &mut usize,
    place: &mut usize,
) -> usize
    ensures { stepped_lent
        (record { numbers = numbers.entry.now; bytes = bytes.old; row = row.old }) read
        ≡ (
          record { number = result; place = place.new; event = event.new; found = found.new },
          record { numbers = numbers.exit.now; bytes = bytes.new; row = row.new },
        ) }
{
    siengulot::siengulot_step(numbers, bytes, read, row, event, found, place)
}

#[unsafe(no_mangle)]
pub extern "C" fn siengulot_listen(
    numbers: &mut [usize; NUMBERS],
    bytes: &mut [u8; 128],
    reads: &[u8],
    row: &mut [u8; 128],
    event: &mut usize,
    found: &mut usize,
    used: &mut usize,
    place: &mut usize,
) -> usize
    ensures { listened_lent
        (record { numbers = numbers.entry.now; bytes = bytes.old; row = row.old })
        reads.now
        ≡ (
          (
            record { number = result; place = place.new; event = event.new; found = found.new },
            record { numbers = numbers.exit.now; bytes = bytes.new; row = row.new },
          ),
          used.new,
        ) }
{
    siengulot::siengulot_listen(numbers, bytes, reads, row, event, found, used, place)
}

#[unsafe(no_mangle)]
pub extern "C" fn siengulot_capture_check(
    bytes: &[u8],
    summary: &mut [usize; 5],
    place: &mut usize,
) -> usize
    ensures { summed summary.old (checked bytes.now)
        ≡ (result, place.new, summary.new) }
{
    siengulot::siengulot_capture_check(bytes, summary, place)
}

#[unsafe(no_mangle)]
pub extern "C" fn siengulot_capture_read(
    bytes: &[u8],
    out: &mut [u8],
    summary: &mut [usize; 5],
    place: &mut usize,
) -> usize
    ensures { crossing (summed summary.old) (read_back bytes.now out.old)
        ≡ ((result, place.new, summary.new), out.new) }
{
    siengulot::siengulot_capture_read(bytes, out, summary, place)
}

#[unsafe(no_mangle)]
pub extern "C" fn siengulot_capture_write(
    k: usize,
    n: usize,
    q: usize,
    reads: &[u8],
    out: &mut [u8],
    place: &mut usize,
    count: &mut usize,
) -> usize
    ensures { crossing crossed (written k n q reads.now out.old)
        ≡ ((result, place.new, count.new), out.new) }
{
    siengulot::siengulot_capture_write(k, n, q, reads, out, place, count)
}

#[unsafe(no_mangle)]
pub extern "C" fn siengulot_time_read(
    bits: &[u8],
    out: &mut [u8],
    place: &mut usize,
    count: &mut usize,
) -> usize
    ensures { crossing crossed (read_times bits.now out.old)
        ≡ ((result, place.new, count.new), out.new) }
{
    siengulot::siengulot_time_read(bits, out, place, count)
}

#[unsafe(no_mangle)]
pub extern "C" fn siengulot_time_write(
    hours: usize,
    minutes: usize,
    seconds: usize,
    frames: usize,
    out: &mut [u8],
    place: &mut usize,
    count: &mut usize,
) -> usize
    ensures { crossing crossed (write_time hours minutes seconds frames out.old)
        ≡ ((result, place.new, count.new), out.new) }
{
    siengulot::siengulot_time_write(hours, minutes, seconds, frames, out, place, count)
}

#[unsafe(no_mangle)]
pub extern "C" fn siengulot_log_event(
    number: u64,
    row: &[u8; RECORD_BYTES],
    count: usize,
    mark: u8,
    numbers: &mut [u64; RECORDS],
    bits: &mut [u8; ALL_BYTES],
    counts: &mut [usize; RECORDS],
    broken: &mut [u8; RECORDS],
    free: &mut [u8; RECORDS],
    broken_count: &mut usize,
    taken: &mut usize,
) -> usize
    ensures { leaving numbered (logged number row.now count mark
        (record {
          numbers = numbers.entry.now;
          bits = bits.old;
          counts = counts.old;
          broken = broken.old;
          free = free.old;
          broken_count = broken_count.old;
        }))
        ≡ (
          (result, taken.new),
          record {
            numbers = numbers.exit.now;
            bits = bits.new;
            counts = counts.new;
            broken = broken.new;
            free = free.new;
            broken_count = broken_count.new;
          },
        ) }
{
    siengulot::siengulot_log_event(
        number,
        row,
        count,
        mark,
        numbers,
        bits,
        counts,
        broken,
        free,
        broken_count,
        taken,
    )
}

#[unsafe(no_mangle)]
pub extern "C" fn siengulot_log_clear(
    place: usize,
    numbers: &mut [u64; RECORDS],
    bits: &mut [u8; ALL_BYTES],
    counts: &mut [usize; RECORDS],
    broken: &mut [u8; RECORDS],
    free: &mut [u8; RECORDS],
    broken_count: &mut usize,
) -> usize
    ensures { leaving cleared_over (cleared place
        (record {
          numbers = numbers.entry.now;
          bits = bits.old;
          counts = counts.old;
          broken = broken.old;
          free = free.old;
          broken_count = broken_count.old;
        }))
        ≡ (
          result,
          record {
            numbers = numbers.exit.now;
            bits = bits.new;
            counts = counts.new;
            broken = broken.new;
            free = free.new;
            broken_count = broken_count.new;
          },
        ) }
{
    siengulot::siengulot_log_clear(place, numbers, bits, counts, broken, free, broken_count)
}

#[unsafe(no_mangle)]
pub extern "C" fn siengulot_log_list(
    numbers: &[u64; RECORDS],
    free: &[u8; RECORDS],
    places: &mut [usize],
    count: &mut usize,
) -> usize
    ensures { crossing numbered (listed numbers.now free.now places.old)
        ≡ ((result, count.new), places.new) }
{
    siengulot::siengulot_log_list(numbers, free, places, count)
}
