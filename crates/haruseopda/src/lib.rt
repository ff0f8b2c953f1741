// Every call as a C function, with the same promise as the call inside; `haruseopda_c` exports them. include/haruseopda.h is the manual.
#![tactic(auto)]

ghost use Rattle.std.specs.Prelude.{◌≡◌};
ghost use Rattle.residue_scores.specs.declared.Score.TheVariants.{Largest, Sum};
ghost use Rattle.clearance_cell.specs.Calls.{clearance_answer};
ghost use Rattle.clearance_maps.specs.Calls.{ClearanceMap, AxisMap, Reconstruction};
ghost use Rattle.erosion_maps.specs.Calls.{ErosionMap, ResidueMap, ScoreMap, volume_of};
ghost use Rattle.reading.specs.Reading.{read};
ghost use Rattle.jobs.specs.Calls.{Drawn, ListCall, TidyCall};
ghost use Rattle.job_check.specs.Checking.{CheckCall};
ghost use Rattle.refusal.specs.Refusals.{Answered};
ghost use Rattle.sink.specs.Sink.{built_in};
ghost use Rattle.table_field.specs.Tables.{Loaded, table_field, write_verdict};
ghost use Rattle.motion.specs.Motions.{motions_in};
ghost use Rattle.c_arguments.specs.Scale.{scale_of};
ghost use Rattle.c_answers.specs.Told.{of_cell, of_volume, Told};
ghost use Rattle.c_answers.specs.Jobs.{of_read, ToldList, of_motions};
ghost use Rattle.c_answers.specs.Ports.{of_port, ToldPort};
ghost use Rattle.port.specs.Machine.{fresh, written, happened};
ghost use Rattle.port_run.specs.Traces.{TraceRun};

use c_answers::{HaruAnswer, HaruJob, HaruListAnswer, HaruMotions, HaruPortAnswer};
use c_arguments::HaruScale;
use port::Port;
use residue_scores::Score;

// ---- maps

// The clearance of one cell, as the value.
#[unsafe(no_mangle)]
pub extern "C" fn haru_clearance(
    relief: &[u8],
    kind: u32,
    width: u32,
    height: u32,
    level: u32,
    column: u32,
    row: u32,
) -> HaruAnswer
    ensures { result ≡ of_cell (clearance_answer relief.now kind width height level column row) }
{
    let plate = c_arguments::narrow_plate(kind, width, height);
    c_answers::of_cell(clearance_cell::clearance_of(
        relief,
        plate.kind,
        plate.width,
        plate.height,
        c_arguments::narrow_byte(level),
        c_arguments::narrow_word(column),
        c_arguments::narrow_word(row),
    ))
}

// The clearance of each cell at a level, into out.
#[unsafe(no_mangle)]
pub extern "C" fn haru_clearance_map(
    relief: &[u8],
    kind: u32,
    width: u32,
    height: u32,
    level: u32,
    out: &mut [u8],
) -> HaruAnswer
    ensures { Told (ClearanceMap relief.now kind width height level out.old out.new) result }
{
    let plate = c_arguments::narrow_plate(kind, width, height);
    c_answers::of_verdict(clearance_maps::clearance_map(
        relief,
        plate.kind,
        plate.width,
        plate.height,
        c_arguments::narrow_byte(level),
        out,
    ))
}

// The medial axis of a level, into out.
#[unsafe(no_mangle)]
pub extern "C" fn haru_axis_map(
    relief: &[u8],
    kind: u32,
    width: u32,
    height: u32,
    level: u32,
    out: &mut [u8],
) -> HaruAnswer
    ensures { Told (AxisMap relief.now kind width height level out.old out.new) result }
{
    let plate = c_arguments::narrow_plate(kind, width, height);
    c_answers::of_verdict(clearance_maps::axis_map(
        relief,
        plate.kind,
        plate.width,
        plate.height,
        c_arguments::narrow_byte(level),
        out,
    ))
}

// Drawing back from any byte map, into out.
#[unsafe(no_mangle)]
pub extern "C" fn haru_reconstruct(
    map: &[u8],
    kind: u32,
    width: u32,
    height: u32,
    out: &mut [u8],
) -> HaruAnswer
    ensures { Told (Reconstruction map.now kind width height out.old out.new) result }
{
    let plate = c_arguments::narrow_plate(kind, width, height);
    c_answers::of_verdict(clearance_maps::reconstruct(
        map,
        plate.kind,
        plate.width,
        plate.height,
        out,
    ))
}

// An erosion of a relief (document 01's rung), into out.
#[unsafe(no_mangle)]
pub extern "C" fn haru_rung_map(
    relief: &[u8],
    kind: u32,
    width: u32,
    height: u32,
    number: u32,
    out: &mut [u8],
    a: &mut [u8],
    b: &mut [u8],
) -> HaruAnswer
    ensures { Told (ErosionMap relief.now kind width height number out.old out.new
        a.old a.new b.old b.new) result }
{
    let plate = c_arguments::narrow_plate(kind, width, height);
    c_answers::of_verdict(erosion_maps::erosion_map(
        relief,
        plate.kind,
        plate.width,
        plate.height,
        c_arguments::narrow_word(number),
        out,
        a,
        b,
    ))
}

// A residue of a relief, into out.
#[unsafe(no_mangle)]
pub extern "C" fn haru_residue_map(
    relief: &[u8],
    kind: u32,
    width: u32,
    height: u32,
    number: u32,
    out: &mut [u8],
    a: &mut [u8],
    b: &mut [u8],
) -> HaruAnswer
    ensures { Told (ResidueMap relief.now kind width height number out.old out.new
        a.old a.new b.old b.new) result }
{
    let plate = c_arguments::narrow_plate(kind, width, height);
    c_answers::of_verdict(erosion_maps::residue_map(
        relief,
        plate.kind,
        plate.width,
        plate.height,
        c_arguments::narrow_word(number),
        out,
        a,
        b,
    ))
}

// Each cell's largest residue, into out.
#[unsafe(no_mangle)]
pub extern "C" fn haru_largest_residue_map(
    relief: &[u8],
    kind: u32,
    width: u32,
    height: u32,
    out: &mut [u8],
    a: &mut [u8],
    b: &mut [u8],
) -> HaruAnswer
    ensures { Told (ScoreMap Largest relief.now kind width height out.old out.new
        a.old a.new b.old b.new) result }
{
    let plate = c_arguments::narrow_plate(kind, width, height);
    c_answers::of_verdict(erosion_maps::score_map(
        Score::Largest,
        relief,
        plate.kind,
        plate.width,
        plate.height,
        out,
        a,
        b,
    ))
}

// The sum of each cell's residues, into out.
#[unsafe(no_mangle)]
pub extern "C" fn haru_residue_sum_map(
    relief: &[u8],
    kind: u32,
    width: u32,
    height: u32,
    out: &mut [u8],
    a: &mut [u8],
    b: &mut [u8],
) -> HaruAnswer
    ensures { Told (ScoreMap Sum relief.now kind width height out.old out.new
        a.old a.new b.old b.new) result }
{
    let plate = c_arguments::narrow_plate(kind, width, height);
    c_answers::of_verdict(erosion_maps::score_map(
        Score::Sum,
        relief,
        plate.kind,
        plate.width,
        plate.height,
        out,
        a,
        b,
    ))
}

// The sum of all depths, as the value.
#[unsafe(no_mangle)]
pub extern "C" fn haru_volume(relief: &[u8], width: u32, height: u32) -> HaruAnswer
    ensures { result ≡ of_volume (volume_of relief.now width height) }
{
    c_answers::of_volume(erosion_maps::volume(
        relief,
        c_arguments::narrow_word(width),
        c_arguments::narrow_word(height),
    ))
}

// ---- job files

// Reads a file.
#[unsafe(no_mangle)]
pub extern "C" fn haru_read(file: &[u8]) -> HaruJob
    ensures { result ≡ of_read (read file.now) }
{
    c_answers::of_read(reading::read(file))
}

// Draws a file into out, a relief.
#[unsafe(no_mangle)]
pub extern "C" fn haru_draw(file: &[u8], out: &mut [u8]) -> HaruAnswer
    ensures { Told (Drawn file.now out.old out.new) result }
{
    c_answers::of_verdict(jobs::draw(file, out))
}

// Lists a relief as a file into out.
#[unsafe(no_mangle)]
pub extern "C" fn haru_list(
    relief: &[u8],
    kind: u32,
    width: u32,
    height: u32,
    out: &mut [u8],
    a: &mut [u8],
    b: &mut [u8],
) -> HaruListAnswer
    ensures { ToldList (ListCall relief.now kind width height out.old out.new
        a.old a.new b.old b.new) result }
{
    let plate = c_arguments::narrow_plate(kind, width, height);
    c_answers::of_list(jobs::list(relief, plate.kind, plate.width, plate.height, out, a, b))
}

// The canonical form of a file, into out.
#[unsafe(no_mangle)]
pub extern "C" fn haru_tidy(
    file: &[u8],
    out: &mut [u8],
    a: &mut [u8],
    b: &mut [u8],
    c: &mut [u8],
) -> HaruListAnswer
    ensures { ToldList (TidyCall file.now out.old out.new
        a.old a.new b.old b.new c.old c.new) result }
{
    c_answers::of_list(jobs::tidy(file, out, a, b, c))
}

// Whether a file is its own canonical form.
#[unsafe(no_mangle)]
pub extern "C" fn haru_check(file: &[u8], a: &mut [u8], b: &mut [u8], c: &mut [u8]) -> HaruAnswer
    ensures { Told (CheckCall file.now
        a.old a.new b.old b.new c.old c.new) result }
{
    c_answers::of_verdict(job_check::check(file, a, b, c))
}

// ---- sink tables

// The table that a press starts with, into a lent one.
#[unsafe(no_mangle)]
pub extern "C" fn haru_built_in_table(table: &mut [u16; sink::ENTRIES])
    ensures { table.new ≡ built_in }
{
    *table = sink::built_in();
}

// Loads a table from a field in place of the table in force.
#[unsafe(no_mangle)]
pub extern "C" fn haru_load_table(field: &[u8], table: &mut [u16; sink::ENTRIES]) -> HaruAnswer
    ensures { Told (Loaded field.now table.old table.new) result }
{
    c_answers::of_verdict(table_field::load(field, table))
}

// Writes a table as a field into out.
#[unsafe(no_mangle)]
pub extern "C" fn haru_write_table(table: &[u16; sink::ENTRIES], out: &mut [u8]) -> HaruAnswer
    ensures { Told (Answered (write_verdict table.now out.old) (table_field table.now)
        out.old out.new) result }
{
    c_answers::of_verdict(table_field::write(table, out))
}

// ---- press motions

// The motions of plunge number i of a file, by the built-in table.
#[unsafe(no_mangle)]
pub extern "C" fn haru_motions(file: &[u8], i: usize, scale: HaruScale) -> HaruMotions
    ensures { result ≡ of_motions (motions_in built_in file.now i (scale_of scale)) }
{
    c_answers::of_motions(motion::built_in_motions(file, i, c_arguments::scale_of(scale)))
}

// The same by another table.
#[unsafe(no_mangle)]
pub extern "C" fn haru_table_motions(
    table: &[u16; sink::ENTRIES],
    file: &[u8],
    i: usize,
    scale: HaruScale,
) -> HaruMotions
    ensures { result ≡ of_motions (motions_in table.now file.now i (scale_of scale)) }
{
    c_answers::of_motions(motion::plunge_motions(table, file, i, c_arguments::scale_of(scale)))
}

// ---- the press port

// A port as it is at start.
#[unsafe(no_mangle)]
pub extern "C" fn haru_fresh_port() -> Port
    ensures { result ≡ fresh }
{
    port::fresh()
}

// A write of the host.
#[unsafe(no_mangle)]
pub extern "C" fn haru_port_write(port: Port, index: usize, value: u8) -> HaruPortAnswer
    ensures { result ≡ of_port (written port index value) }
{
    c_answers::of_port(port::write(port, index, value))
}

// An event of the press.
#[unsafe(no_mangle)]
pub extern "C" fn haru_port_event(port: Port, event: u32) -> HaruPortAnswer
    ensures { result ≡ of_port (happened port event) }
{
    c_answers::of_port(port::event(port, event))
}

// Writes and events one after the other, three bytes each; the number of each answer into numbers.
#[unsafe(no_mangle)]
pub extern "C" fn haru_port_run(port: Port, trace: &[u8], numbers: &mut [u8]) -> HaruPortAnswer
    ensures { ToldPort (TraceRun port trace.now numbers.old numbers.new) result }
{
    c_answers::of_port(port_run::run(port, trace, numbers))
}
