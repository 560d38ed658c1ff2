//! Classes of instructions: 128 frequent ones, and one for each pair of modes. classes.py writes
//! the tables.
ghost use Rattle.std.specs.Prelude.{◌≡◌, ◌<◌};
ghost use Rattle.mars_core.specs.Classes.{class_range, class_of_key, class_from_32, class_from_64, class_from_96};

// Classes below this one are the most frequent instructions.
pub(crate) const FIRST_OF_FURTHER: u64 = 64;

// Classes below this one are frequent instructions; the others say modes, and nothing else.
pub(crate) const FIRST_OF_MODES: u64 = 128;

// A class has 8 bits of a word. The values from 192 on are not classes.
pub(crate) const CLASS_RANGE: u64 = 256;

// Returns the class of a key.
#[inline]
#[tactic(auto, unfolding(crate::specs::Classes::class_of_key))]
pub(crate) fn class_of_key(key: u64) -> u64
    requires { key < 16384 }
    ensures value { result ≡ class_of_key key }
    ensures small { result < class_range }
{
    match key {
        // table of keys from 0
        2318 => 0, // MOV.I $, $
        2361 => 1, // JMP.B $, $
        6414 => 2, // MOV.I $, @
        2066 => 3, // ADD.AB #, $
        2161 => 4, // SPL.B #, $
        10553 => 5, // JMP.B $, <
        2929 => 6, // SPL.B @, $
        15886 => 7, // MOV.I }, >
        8505 => 8, // JMP.B $, {
        2324 => 9, // ADD.F $, $
        2406 => 10, // SNE.I $, $
        14606 => 11, // MOV.I $, >
        2074 => 12, // SUB.AB #, $
        10580 => 13, // DJN.F $, <
        2417 => 14, // SPL.B $, $
        10510 => 15, // MOV.I $, <
        2332 => 16, // SUB.F $, $
        2398 => 17, // SEQ.I $, $
        14676 => 18, // DJN.F $, >
        11278 => 19, // MOV.I {, <
        14449 => 20, // SPL.B #, >
        11534 => 21, // MOV.I <, <
        4366 => 22, // MOV.I $, *
        2308 => 23, // DAT.F $, $
        2873 => 24, // JMP.B @, $
        3342 => 25, // MOV.I <, $
        2058 => 26, // MOV.AB #, $
        337 => 27, // DJN.B $, #
        2369 => 28, // JMZ.B $, $
        10609 => 29, // SPL.B $, <
        6201 => 30, // JMP.B #, @
        2062 => 31, // MOV.I #, $
        // end of keys from 0
        _ => class_from_32(key),
    }
}

// Returns the class of a key that is not one of the first 32 of classes.txt.
#[tactic(auto, unfolding(crate::specs::Classes::class_from_32))]
fn class_from_32(key: u64) -> u64
    requires { key < 16384 }
    ensures value { result ≡ class_from_32 key }
    ensures small { result < class_range }
{
    match key {
        // table of keys from 32
        2385 => 32, // DJN.B $, $
        11022 => 33, // MOV.I @, <
        11524 => 34, // DAT.F <, <
        15217 => 35, // SPL.B @, >
        10577 => 36, // DJN.B $, <
        2377 => 37, // JMN.B $, $
        3844 => 38, // DAT.F >, $
        4 => 39, // DAT.F #, #
        10353 => 40, // SPL.B #, <
        8305 => 41, // SPL.B #, {
        12401 => 42, // SPL.B #, }
        113 => 43, // SPL.B #, #
        11121 => 44, // SPL.B @, <
        9073 => 45, // SPL.B @, {
        13169 => 46, // SPL.B @, }
        4110 => 47, // MOV.I #, *
        12558 => 48, // MOV.I $, }
        8462 => 49, // MOV.I $, {
        14862 => 50, // MOV.I *, >
        3086 => 51, // MOV.I {, $
        9486 => 52, // MOV.I <, {
        3854 => 53, // MOV.I >, $
        14094 => 54, // MOV.I >, }
        8532 => 55, // DJN.F $, {
        12628 => 56, // DJN.F $, }
        11065 => 57, // JMP.B @, <
        15161 => 58, // JMP.B @, >
        10564 => 59, // JMZ.F $, <
        6750 => 60, // SEQ.I *, @
        6758 => 61, // SNE.I *, @
        6757 => 62, // SNE.X *, @
        3332 => 63, // DAT.F <, $
        // end of keys from 32
        _ => class_from_64(key),
    }
}

// Returns the class of a key that is not one of the first 64 of classes.txt.
#[tactic(auto, unfolding(crate::specs::Classes::class_from_64))]
fn class_from_64(key: u64) -> u64
    requires { key < 16384 }
    ensures value { result ≡ class_from_64 key }
    ensures small { result < class_range }
{
    match key {
        // table of keys from 64
        10254 => 64, // MOV.I #, <
        14350 => 65, // MOV.I #, >
        9230 => 66, // MOV.I {, {
        15374 => 67, // MOV.I {, >
        13070 => 68, // MOV.I @, }
        12302 => 69, // MOV.I #, }
        9998 => 70, // MOV.I >, {
        13582 => 71, // MOV.I <, }
        12814 => 72, // MOV.I *, }
        8206 => 73, // MOV.I #, {
        7950 => 74, // MOV.I >, @
        13326 => 75, // MOV.I {, }
        15118 => 76, // MOV.I @, >
        12046 => 77, // MOV.I >, <
        11790 => 78, // MOV.I }, <
        3598 => 79, // MOV.I }, $
        13838 => 80, // MOV.I }, }
        9742 => 81, // MOV.I }, {
        16142 => 82, // MOV.I >, >
        15630 => 83, // MOV.I <, >
        2830 => 84, // MOV.I @, $
        2574 => 85, // MOV.I *, $
        14649 => 86, // JMP.B $, >
        12601 => 87, // JMP.B $, }
        10297 => 88, // JMP.B #, <
        8249 => 89, // JMP.B #, {
        2105 => 90, // JMP.B #, $
        2388 => 91, // DJN.F $, $
        6484 => 92, // DJN.F $, @
        10321 => 93, // DJN.B #, <
        8529 => 94, // DJN.B $, {
        12625 => 95, // DJN.B $, }
        // end of keys from 64
        _ => class_from_96(key),
    }
}

// Returns the class of a key that is not one of the first 96 of classes.txt. If the instruction is
// not a frequent one, the class is that of its modes.
#[tactic(auto, unfolding(crate::specs::Classes::class_from_96))]
fn class_from_96(key: u64) -> u64
    requires { key < 16384 }
    ensures value { result ≡ class_from_96 key }
    ensures small { result < class_range }
{
    match key {
        // table of keys from 96
        14673 => 96, // DJN.B $, >
        6481 => 97, // DJN.B $, @
        57 => 98, // JMP.B #, #
        4153 => 99, // JMP.B #, *
        14393 => 100, // JMP.B #, >
        4420 => 101, // JMZ.F $, *
        6468 => 102, // JMZ.F $, @
        14660 => 103, // JMZ.F $, >
        8513 => 104, // JMZ.B $, {
        10561 => 105, // JMZ.B $, <
        4417 => 106, // JMZ.B $, *
        4425 => 107, // JMN.B $, *
        6473 => 108, // JMN.B $, @
        8561 => 109, // SPL.B $, {
        14705 => 110, // SPL.B $, >
        12657 => 111, // SPL.B $, }
        4209 => 112, // SPL.B #, *
        2673 => 113, // SPL.B *, $
        8817 => 114, // SPL.B *, {
        12345 => 115, // JMP.B #, }
        2064 => 116, // ADD.A #, $
        2072 => 117, // SUB.A #, $
        2068 => 118, // ADD.F #, $
        2096 => 119, // MOD.A #, $
        2329 => 120, // SUB.B $, $
        2325 => 121, // ADD.X $, $
        2333 => 122, // SUB.X $, $
        2154 => 123, // SLT.AB #, $
        2152 => 124, // SLT.A #, $
        2397 => 125, // SEQ.X $, $
        2405 => 126, // SNE.X $, $
        10500 => 127, // DAT.F $, <
        // end of keys from 96
        _ => FIRST_OF_MODES + key / 256,
    }
}
