// The residue of two erosions, joined to a score at each cell: of any map row by row, and of a map with a margin in one run.
#![tactic(auto)]

ghost use Rattle.std.specs.Prelude.{◌≡◌, ◌+◌, ◌-◌, ◌*◌, ◌≤◌, ◌<◌, length, get_or};
ghost use Rattle.window.specs.Windows.{window_max};
ghost use Rattle.window.specs.Places.{window_in};
ghost use Rattle.buffers.specs.Fill.{Filled};
ghost use Rattle.buffers.specs.Runs.{Interior, Columns};
ghost use Rattle.residue_scores.specs.Residues.{ScoreBuffers, ScoreStep, joined_score, scored_at, Scored};

use geometry::{Head, Kind};

// The two scores of a cell: its largest residue, and the sum of its residues.
#[derive(Clone, Copy)]
pub enum Score {
    Largest,
    Sum,
}

// A score with one residue more; a sum stays at 255.
fn join(score: Score, a: u8, residue: u8) -> u8
    ensures { result ≡ joined_score score a residue }
{
    match score {
        Score::Largest => a.max(residue),
        Score::Sum => a.saturating_add(residue),
    }
}

// Residues in the places from one up to another, with the nine bytes about a place for its window.
fn residue_run(
    kind: Kind,
    score: Score,
    prev: &[u8],
    cur: &[u8],
    out: &mut [u8],
    width: usize,
    from: usize,
    to: usize,
)
    requires { Interior width from to cur.now × (to ≤ length prev.now) × (to ≤ length out.old) }
    ensures { Filled
        (λ n. joined_score score (get_or out.old n 0)
        (get_or prev.now n 0 - window_max kind (window_in cur.now width n)))
        from to out.old out.new }
{
    for n in from..to {
        let highest = window::window_max(kind, window::window_in(cur, width, n));
        out[n] = join(score, out[n], prev[n].saturating_sub(highest));
    }
}

// Residues in some columns of any row.
fn residue_cells(
    head: Head,
    score: Score,
    prev: &[u8],
    cur: &[u8],
    out: &mut [u8],
    row: u16,
    from: u16,
    to: u16,
)
    requires { Columns head row from to × ScoreBuffers head prev.now cur.now out.old }
    ensures { Filled (scored_at head score prev.now cur.now out.old row)
        (row * head.width + from) (row * head.width + to) out.old out.new }
{
    let kind = head.kind;
    let start = (row as usize) * (head.width as usize);
    for x in from..to {
        let n = start + (x as usize);
        let highest = window::window_max(kind, window::window_at(head, cur, x, row));
        out[n] = join(score, out[n], prev[n].saturating_sub(highest));
    }
}

// Residues of one row: those of its ends by their windows, the others in one run.
fn residue_row(head: Head, score: Score, prev: &[u8], cur: &[u8], out: &mut [u8], row: u16)
    requires { (row < head.height) × ScoreBuffers head prev.now cur.now out.old }
    ensures { Filled (scored_at head score prev.now cur.now out.old row)
        (row * head.width) (row * head.width + head.width) out.old out.new }
{
    let kind = head.kind;
    let width = head.width;
    if !window::is_inner(head, row) {
        residue_cells(head, score, prev, cur, out, row, 0, width);
        return;
    }
    let start = (row as usize) * (width as usize);
    residue_cells(head, score, prev, cur, out, row, 0, 1);
    residue_run(
        kind,
        score,
        prev,
        cur,
        out,
        width as usize,
        start + 1,
        start + (width as usize) - 1,
    );
    residue_cells(head, score, prev, cur, out, row, width - 1, width);
}

// Residues of all rows, one after the other.
fn residue_first(head: Head, score: Score, prev: &[u8], cur: &[u8], out: &mut [u8])
    requires { ScoreBuffers head prev.now cur.now out.old }
    ensures { Scored head score prev.now cur.now 0 head.height
        out.old out.new }
{
    for row in 0..head.height {
        residue_row(head, score, prev, cur, out, row);
    }
}

// Residues of a map that is 0 within k of the border: the rows that are left, in one run.
fn residue_next(head: Head, score: Score, k: usize, prev: &[u8], cur: &[u8], out: &mut [u8])
    requires { ScoreStep head k k prev.now cur.now out.old }
    ensures { Scored head score prev.now cur.now 0 head.height
        out.old out.new }
{
    let kind = head.kind;
    let width = head.width as usize;
    let height = head.height as usize;
    if width < 3 {
        return;
    }
    if height < 2 * k + 1 {
        return;
    }
    residue_run(
        kind,
        score,
        prev,
        cur,
        out,
        width,
        k * width + 1,
        (height - k) * width - 1,
    );
}

// Residue k of erosions k - 1 and k, joined to a score.
pub fn residue_step(head: Head, score: Score, k: usize, prev: &[u8], cur: &[u8], out: &mut [u8])
    requires { ScoreStep head k (k - 1) prev.now cur.now out.old }
    ensures { Scored head score prev.now cur.now 0 head.height
        out.old out.new }
{
    if k == 1 {
        residue_first(head, score, prev, cur, out);
    } else {
        residue_next(head, score, k - 1, prev, cur, out);
    }
}
