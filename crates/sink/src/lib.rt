// Sink tables: how deep the press sinks for a plunge, by the table in force, its reach and depth.
#![tactic(auto)]

ghost use Rattle.std.specs.Prelude.{◌≡◌, ◌<◌, get_or};
ghost use Rattle.sink.specs.Sink.{table_entries, built_in, plunge_sink, plunge_millimetres};
ghost use Rattle.sink.specs.Rule.{breaks_rule};

// A table has an entry for each depth.
pub const ENTRIES: usize = 256;

// No entry of a shop's table exceeds this.
pub const LARGEST_ENTRY: u16 = 50000;

// The built-in table, whole micrometres for each depth: 20 a step, and the square's 64th, rounded down.
pub const SINK: [u16; ENTRIES] = [
    0, 20, 40, 60, 80, 100, 120, 140, 161, 181, 201, 221, 242, 262, 283, 303, 324, 344, 365, 385,
    406, 426, 447, 468, 489, 509, 530, 551, 572, 593, 614, 635, 656, 677, 698, 719, 740, 761, 782,
    803, 825, 846, 867, 888, 910, 931, 953, 974, 996, 1017, 1039, 1060, 1082, 1103, 1125, 1147,
    1169, 1190, 1212, 1234, 1256, 1278, 1300, 1322, 1344, 1366, 1388, 1410, 1432, 1454, 1476, 1498,
    1521, 1543, 1565, 1587, 1610, 1632, 1655, 1677, 1700, 1722, 1745, 1767, 1790, 1812, 1835, 1858,
    1881, 1903, 1926, 1949, 1972, 1995, 2018, 2041, 2064, 2087, 2110, 2133, 2156, 2179, 2202, 2225,
    2249, 2272, 2295, 2318, 2342, 2365, 2389, 2412, 2436, 2459, 2483, 2506, 2530, 2553, 2577, 2601,
    2625, 2648, 2672, 2696, 2720, 2744, 2768, 2792, 2816, 2840, 2864, 2888, 2912, 2936, 2960, 2984,
    3009, 3033, 3057, 3081, 3106, 3130, 3155, 3179, 3204, 3228, 3253, 3277, 3302, 3326, 3351, 3376,
    3401, 3425, 3450, 3475, 3500, 3525, 3550, 3575, 3600, 3625, 3650, 3675, 3700, 3725, 3750, 3775,
    3801, 3826, 3851, 3876, 3902, 3927, 3953, 3978, 4004, 4029, 4055, 4080, 4106, 4131, 4157, 4183,
    4209, 4234, 4260, 4286, 4312, 4338, 4364, 4390, 4416, 4442, 4468, 4494, 4520, 4546, 4572, 4598,
    4625, 4651, 4677, 4703, 4730, 4756, 4783, 4809, 4836, 4862, 4889, 4915, 4942, 4968, 4995, 5022,
    5049, 5075, 5102, 5129, 5156, 5183, 5210, 5237, 5264, 5291, 5318, 5345, 5372, 5399, 5426, 5453,
    5481, 5508, 5535, 5562, 5590, 5617, 5645, 5672, 5700, 5727, 5755, 5782, 5810, 5837, 5865, 5893,
    5921, 5948, 5976, 6004, 6032, 6060, 6088, 6116,
];

// The table that a press starts with.
pub fn built_in() -> [u16; ENTRIES]
    ensures { result ≡ built_in }
{
    SINK
}

// Its entry for a depth, for a caller that has no table to lend.
pub fn sink_at(depth: u8) -> u16
    ensures { result ≡ get_or built_in depth 0 }
{
    SINK[depth as usize]
}

// ---- the sink of a plunge

// Whole micrometres of a plunge with this table entry, whatever the table: electrodes of a single cell wear faster and sink a tenth more, rounded down.
pub fn plunge_sink(reach: u16, entry: u16) -> u32
    ensures { result ≡ plunge_sink reach entry }
{
    let micrometres = entry as u32;
    let tenth = if reach == 0 { micrometres / 10 } else { 0 };
    micrometres + tenth
}

// The same in millimetres, rounded once.
pub fn sink_of(reach: u16, entry: u16) -> f64
    ensures { result ≡ plunge_millimetres reach entry }
{
    (plunge_sink(reach, entry) as f64) / 1000.0
}

// ---- the rule of a shop's table

// Whether entry number i breaks the rule: entry 0 is 0, each is larger than the one before, none exceeds the largest.
pub fn breaks_rule(table: &[u16; ENTRIES], i: usize) -> bool
    requires { i < table_entries }
    ensures { result ≡ breaks_rule table.now i }
{
    let entry = table[i];
    if LARGEST_ENTRY < entry {
        return true;
    }
    if i == 0 {
        return entry != 0;
    }
    entry <= table[i - 1]
}
