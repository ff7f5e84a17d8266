// The rank of each kind and the plan of each rank: what the fast test of an op goes by, worked out from its entry.
#![tactic(auto)]

ghost use Rattle.std.specs.Prelude.{◌≡◌, ℕ, eqb, ltb, leb, get_or};
ghost use Rattle.ops.specs.Table.{kind_table};
ghost use Rattle.ops.specs.Plans.{rank_of, length_by, rank_table, length_table, plan_at, length_in, out_ask_in, first_ask_in, second_ask_in, first_at_in, second_at_in, byte_at_in, byte_ask_in, more_in, test_as, straight_end, flow_rank, exit_rank, setting_rank, has_label};

use std::marker::Model;

// The rank of each kind; kinds with the same entry have the same, and 255 is no op's. The table is made where the loop over the ops starts, and a byte for a kind is soon made.
const RANKS: [u8; 256] = [
    255, // 00
    255, // 01 declaration
    30, // 02 set_label
    29, // 03 br
    28, // 04 exit_tb
    5, // 05 ext_i32_i64
    5, // 06 extu_i32_i64
    6, // 07 trunc_i64_i32
    255, // 08
    255, // 09
    255, // 0a
    255, // 0b
    255, // 0c
    255, // 0d
    255, // 0e
    255, // 0f
    15, // 10 movi_i32
    7, // 11 mov_i32
    7, // 12 neg_i32
    7, // 13 not_i32
    9, // 14 add_i32
    9, // 15 sub_i32
    9, // 16 mul_i32
    9, // 17 and_i32
    9, // 18 or_i32
    9, // 19 xor_i32
    9, // 1a andc_i32
    9, // 1b orc_i32
    9, // 1c eqv_i32
    9, // 1d nand_i32
    9, // 1e nor_i32
    9, // 1f divs_i32
    9, // 20 divu_i32
    9, // 21 rems_i32
    9, // 22 remu_i32
    9, // 23 shl_i32
    9, // 24 shr_i32
    9, // 25 sar_i32
    9, // 26 rotl_i32
    9, // 27 rotr_i32
    11, // 28 setcond_i32
    13, // 29 movcond_i32
    26, // 2a brcond_i32
    0, // 2b qemu_ld_i32
    2, // 2c qemu_st_i32
    16, // 2d deposit_i32
    18, // 2e extract_i32
    18, // 2f sextract_i32
    20, // 30 extract2_i32
    22, // 31 bswap16_i32
    24, // 32 bswap32_i32
    255, // 33
    9, // 34 clz_i32
    9, // 35 ctz_i32
    7, // 36 ctpop_i32
    255, // 37
    255, // 38
    255, // 39
    255, // 3a
    255, // 3b
    255, // 3c
    255, // 3d
    255, // 3e
    255, // 3f
    255, // 40
    255, // 41
    255, // 42
    255, // 43
    255, // 44
    255, // 45
    255, // 46
    255, // 47
    255, // 48
    255, // 49
    255, // 4a
    255, // 4b
    255, // 4c
    255, // 4d
    255, // 4e
    255, // 4f
    255, // 50
    255, // 51
    255, // 52
    255, // 53
    255, // 54
    255, // 55
    255, // 56
    255, // 57
    255, // 58
    255, // 59
    255, // 5a
    255, // 5b
    255, // 5c
    255, // 5d
    255, // 5e
    255, // 5f
    255, // 60
    255, // 61
    255, // 62
    255, // 63
    255, // 64
    255, // 65
    255, // 66
    255, // 67
    255, // 68
    255, // 69
    255, // 6a
    255, // 6b
    255, // 6c
    255, // 6d
    255, // 6e
    255, // 6f
    255, // 70
    255, // 71
    255, // 72
    255, // 73
    255, // 74
    255, // 75
    255, // 76
    255, // 77
    255, // 78
    255, // 79
    255, // 7a
    255, // 7b
    255, // 7c
    255, // 7d
    255, // 7e
    255, // 7f
    255, // 80
    255, // 81
    255, // 82
    255, // 83
    255, // 84
    255, // 85
    255, // 86
    255, // 87
    255, // 88
    255, // 89
    255, // 8a
    255, // 8b
    255, // 8c
    255, // 8d
    255, // 8e
    255, // 8f
    4, // 90 movi_i64
    8, // 91 mov_i64
    8, // 92 neg_i64
    8, // 93 not_i64
    10, // 94 add_i64
    10, // 95 sub_i64
    10, // 96 mul_i64
    10, // 97 and_i64
    10, // 98 or_i64
    10, // 99 xor_i64
    10, // 9a andc_i64
    10, // 9b orc_i64
    10, // 9c eqv_i64
    10, // 9d nand_i64
    10, // 9e nor_i64
    10, // 9f divs_i64
    10, // a0 divu_i64
    10, // a1 rems_i64
    10, // a2 remu_i64
    10, // a3 shl_i64
    10, // a4 shr_i64
    10, // a5 sar_i64
    10, // a6 rotl_i64
    10, // a7 rotr_i64
    12, // a8 setcond_i64
    14, // a9 movcond_i64
    27, // aa brcond_i64
    1, // ab qemu_ld_i64
    3, // ac qemu_st_i64
    17, // ad deposit_i64
    19, // ae extract_i64
    19, // af sextract_i64
    21, // b0 extract2_i64
    23, // b1 bswap16_i64
    23, // b2 bswap32_i64
    25, // b3 bswap64_i64
    10, // b4 clz_i64
    10, // b5 ctz_i64
    8, // b6 ctpop_i64
    255, // b7
    255, // b8
    255, // b9
    255, // ba
    255, // bb
    255, // bc
    255, // bd
    255, // be
    255, // bf
    255, // c0
    255, // c1
    255, // c2
    255, // c3
    255, // c4
    255, // c5
    255, // c6
    255, // c7
    255, // c8
    255, // c9
    255, // ca
    255, // cb
    255, // cc
    255, // cd
    255, // ce
    255, // cf
    255, // d0
    255, // d1
    255, // d2
    255, // d3
    255, // d4
    255, // d5
    255, // d6
    255, // d7
    255, // d8
    255, // d9
    255, // da
    255, // db
    255, // dc
    255, // dd
    255, // de
    255, // df
    255, // e0
    255, // e1
    255, // e2
    255, // e3
    255, // e4
    255, // e5
    255, // e6
    255, // e7
    255, // e8
    255, // e9
    255, // ea
    255, // eb
    255, // ec
    255, // ed
    255, // ee
    255, // ef
    255, // f0
    255, // f1
    255, // f2
    255, // f3
    255, // f4
    255, // f5
    255, // f6
    255, // f7
    255, // f8
    255, // f9
    255, // fa
    255, // fb
    255, // fc
    255, // fd
    255, // fe
    255, // ff
];

// The length of the record of each kind, 15 if it is no op: by itself, since the next op's place waits for nothing else.
const LENGTHS: [u8; 256] = [
    15, // 00
    15, // 01 declaration
    2, // 02 set_label
    2, // 03 br
    2, // 04 exit_tb
    3, // 05 ext_i32_i64
    3, // 06 extu_i32_i64
    3, // 07 trunc_i64_i32
    15, // 08
    15, // 09
    15, // 0a
    15, // 0b
    15, // 0c
    15, // 0d
    15, // 0e
    15, // 0f
    10, // 10 movi_i32
    3, // 11 mov_i32
    3, // 12 neg_i32
    3, // 13 not_i32
    4, // 14 add_i32
    4, // 15 sub_i32
    4, // 16 mul_i32
    4, // 17 and_i32
    4, // 18 or_i32
    4, // 19 xor_i32
    4, // 1a andc_i32
    4, // 1b orc_i32
    4, // 1c eqv_i32
    4, // 1d nand_i32
    4, // 1e nor_i32
    4, // 1f divs_i32
    4, // 20 divu_i32
    4, // 21 rems_i32
    4, // 22 remu_i32
    4, // 23 shl_i32
    4, // 24 shr_i32
    4, // 25 sar_i32
    4, // 26 rotl_i32
    4, // 27 rotr_i32
    5, // 28 setcond_i32
    7, // 29 movcond_i32
    5, // 2a brcond_i32
    4, // 2b qemu_ld_i32
    4, // 2c qemu_st_i32
    6, // 2d deposit_i32
    5, // 2e extract_i32
    5, // 2f sextract_i32
    5, // 30 extract2_i32
    4, // 31 bswap16_i32
    4, // 32 bswap32_i32
    15, // 33
    4, // 34 clz_i32
    4, // 35 ctz_i32
    3, // 36 ctpop_i32
    15, // 37
    15, // 38
    15, // 39
    15, // 3a
    15, // 3b
    15, // 3c
    15, // 3d
    15, // 3e
    15, // 3f
    15, // 40
    15, // 41
    15, // 42
    15, // 43
    15, // 44
    15, // 45
    15, // 46
    15, // 47
    15, // 48
    15, // 49
    15, // 4a
    15, // 4b
    15, // 4c
    15, // 4d
    15, // 4e
    15, // 4f
    15, // 50
    15, // 51
    15, // 52
    15, // 53
    15, // 54
    15, // 55
    15, // 56
    15, // 57
    15, // 58
    15, // 59
    15, // 5a
    15, // 5b
    15, // 5c
    15, // 5d
    15, // 5e
    15, // 5f
    15, // 60
    15, // 61
    15, // 62
    15, // 63
    15, // 64
    15, // 65
    15, // 66
    15, // 67
    15, // 68
    15, // 69
    15, // 6a
    15, // 6b
    15, // 6c
    15, // 6d
    15, // 6e
    15, // 6f
    15, // 70
    15, // 71
    15, // 72
    15, // 73
    15, // 74
    15, // 75
    15, // 76
    15, // 77
    15, // 78
    15, // 79
    15, // 7a
    15, // 7b
    15, // 7c
    15, // 7d
    15, // 7e
    15, // 7f
    15, // 80
    15, // 81
    15, // 82
    15, // 83
    15, // 84
    15, // 85
    15, // 86
    15, // 87
    15, // 88
    15, // 89
    15, // 8a
    15, // 8b
    15, // 8c
    15, // 8d
    15, // 8e
    15, // 8f
    10, // 90 movi_i64
    3, // 91 mov_i64
    3, // 92 neg_i64
    3, // 93 not_i64
    4, // 94 add_i64
    4, // 95 sub_i64
    4, // 96 mul_i64
    4, // 97 and_i64
    4, // 98 or_i64
    4, // 99 xor_i64
    4, // 9a andc_i64
    4, // 9b orc_i64
    4, // 9c eqv_i64
    4, // 9d nand_i64
    4, // 9e nor_i64
    4, // 9f divs_i64
    4, // a0 divu_i64
    4, // a1 rems_i64
    4, // a2 remu_i64
    4, // a3 shl_i64
    4, // a4 shr_i64
    4, // a5 sar_i64
    4, // a6 rotl_i64
    4, // a7 rotr_i64
    5, // a8 setcond_i64
    7, // a9 movcond_i64
    5, // aa brcond_i64
    4, // ab qemu_ld_i64
    4, // ac qemu_st_i64
    6, // ad deposit_i64
    5, // ae extract_i64
    5, // af sextract_i64
    5, // b0 extract2_i64
    4, // b1 bswap16_i64
    4, // b2 bswap32_i64
    4, // b3 bswap64_i64
    4, // b4 clz_i64
    4, // b5 ctz_i64
    3, // b6 ctpop_i64
    15, // b7
    15, // b8
    15, // b9
    15, // ba
    15, // bb
    15, // bc
    15, // bd
    15, // be
    15, // bf
    15, // c0
    15, // c1
    15, // c2
    15, // c3
    15, // c4
    15, // c5
    15, // c6
    15, // c7
    15, // c8
    15, // c9
    15, // ca
    15, // cb
    15, // cc
    15, // cd
    15, // ce
    15, // cf
    15, // d0
    15, // d1
    15, // d2
    15, // d3
    15, // d4
    15, // d5
    15, // d6
    15, // d7
    15, // d8
    15, // d9
    15, // da
    15, // db
    15, // dc
    15, // dd
    15, // de
    15, // df
    15, // e0
    15, // e1
    15, // e2
    15, // e3
    15, // e4
    15, // e5
    15, // e6
    15, // e7
    15, // e8
    15, // e9
    15, // ea
    15, // eb
    15, // ec
    15, // ed
    15, // ee
    15, // ef
    15, // f0
    15, // f1
    15, // f2
    15, // f3
    15, // f4
    15, // f5
    15, // f6
    15, // f7
    15, // f8
    15, // f9
    15, // fa
    15, // fb
    15, // fc
    15, // fd
    15, // fe
    15, // ff
];

// The first rank of an op that directs the run. Ranks are numbered from the entries (ops/specs/Plans): the ends of their ranges are numbers.
const FLOW: u8 = 26;

// The rank of exit_tb.
pub const EXIT: u8 = 28;

// The ranks, which a call makes once and lends.
#[derive(Drop)]
pub struct Ranks {
    rows: [u8; 256],
    ghost is_table: { rows ≡ rank_table },
}

impl Ranks {
    pub fn new() -> Ranks {
        Ranks { rows: RANKS }
    }

    // The rank of a kind.
    pub fn rank(&self, kind: u8) -> Rank
        ensures { result ≡ rank_of (get_or kind_table kind 0) }
    {
        rank_in(&self.rows, kind)
    }
}

// The rank of a kind in any table.
pub fn rank_in(ranks: &[u8; 256], kind: u8) -> Rank
    ensures { result ≡ get_or ranks.now kind 0 }
{
    Rank {
        number: ranks[kind as usize],
    }
}

// The lengths, which a call makes once and lends.
#[derive(Drop)]
pub struct Lengths {
    rows: [u8; 256],
    ghost is_table: { rows ≡ length_table },
}

impl Lengths {
    pub fn new() -> Lengths {
        Lengths { rows: LENGTHS }
    }

    // The length of a kind's record.
    pub fn record_length(&self, kind: u8) -> usize
        ensures { result ≡ length_by (get_or kind_table kind 0) }
    {
        record_length(&self.rows, kind)
    }
}

// The length of a kind's record in any table.
pub fn record_length(lengths: &[u8; 256], kind: u8) -> usize
    ensures { result ≡ get_or lengths.now kind 0 }
{
    lengths[kind as usize] as usize
}

// The plan of a rank, in bits from the lowest: 4 for the record's length, 15 if it is no op; 4, 5 and 5 for what the output, the first and the second input ask; 2 and 2 for where
// these inputs stand; 3 for where the byte stands that is tested, and 8 for its test, a bit for the number; 3 for what else is asked; 4 for the number of the test. As a `match` it is one load from constant memory.
fn plan_digits(rank: u8) -> u64
    ensures { result ≡ plan_at rank }
{
    match rank {
        0 => 0x40_20ea5214, // qemu_ld_i32
        1 => 0x50_40ea5224, // qemu_ld_i64
        2 => 0x60_80e65104, // qemu_st_i32
        3 => 0x71_00e65204, // qemu_st_i64
        4 => 0x00_0014002a, // movi_i64
        5 => 0x00_002a3123, // ext_i32_i64, extu_i32_i64
        6 => 0x00_002a5213, // trunc_i64_i32
        7 => 0x00_002a3113, // mov_i32, neg_i32, not_i32, ctpop_i32
        8 => 0x00_002a5223, // mov_i64, neg_i64, not_i64, ctpop_i64
        9 => 0x00_003a3114, // add_i32 to rotr_i32, clz_i32, ctz_i32
        10 => 0x00_003a5224, // add_i64 to rotr_i64, clz_i64, ctz_i64
        11 => 0x20_093a3115, // setcond_i32
        12 => 0x20_093a5225, // setcond_i64
        13 => 0x26_09ba3117, // movcond_i32
        14 => 0x26_09ba5227, // movcond_i64
        15 => 0x82_0014001a, // movi_i32
        16 => 0x98_013a3116, // deposit_i32
        17 => 0xa8_013a5226, // deposit_i64
        18 => 0x98_00ea3115, // extract_i32, sextract_i32
        19 => 0xa8_00ea5225, // extract_i64, sextract_i64
        20 => 0xb8_013a3115, // extract2_i32
        21 => 0xc8_013a5225, // extract2_i64
        22 => 0xd8_00ea3114, // bswap16_i32
        23 => 0xd8_00ea5224, // bswap16_i64, bswap32_i64
        24 => 0xe8_00ea3114, // bswap32_i32
        25 => 0xe8_00ea5224, // bswap64_i64
        26 => 0x34_08e63105, // brcond_i32
        27 => 0x34_08e65205, // brcond_i64
        28 => 0x00_00165202, // exit_tb
        29 => 0x14_00140002, // br
        30 => 0x14_00140002, // set_label
        _ => 0x00_0454000f,
    }
}

// A kind's rank, seen as its number.
#[derive(Clone, Copy)]
pub struct Rank {
    pub number: u8,
}

impl Model for Rank {
    ghost Value = { ℕ };

    ghost view = { λ r. r.number };

    ghost inverse = { λ n. record { number = n } };
}

impl Rank {
    // That of what is no op.
    pub const NONE: Rank = Rank { number: 255 };

    // Its plan.
    pub fn plan(self) -> Plan
        ensures { result ≡ plan_at self }
    {
        Plan {
            digits: plan_digits(self.number),
        }
    }

    // Nothing else is asked of the op, and it goes on with the next.
    pub fn is_straight(self) -> bool
        ensures { result ≡ ltb self straight_end }
    {
        self.number < 13
    }

    // It directs the run: it sets a label, jumps or leaves.
    pub fn directs(self) -> bool
        ensures { result ≡ leb flow_rank self }
    {
        FLOW <= self.number
    }

    // It ends the extended basic block.
    pub fn closes(self) -> bool
        ensures { result ≡ leb exit_rank self }
    {
        EXIT <= self.number
    }

    // It leaves the block: exit_tb.
    pub fn exits(self) -> bool
        ensures { result ≡ eqb self exit_rank }
    {
        self.number == EXIT
    }

    // It has a label.
    pub fn has_label(self) -> bool
        ensures { result ≡ has_label self }
    {
        (FLOW <= self.number) & (self.number != EXIT)
    }

    // It sets its label.
    pub fn sets_label(self) -> bool
        ensures { result ≡ eqb self setting_rank }
    {
        self.number == 30
    }
}

// A plan, seen as the number that its digits make.
#[derive(Clone, Copy)]
pub struct Plan {
    pub digits: u64,
}

impl Model for Plan {
    ghost Value = { ℕ };

    ghost view = { λ h. h.digits };

    ghost inverse = { λ n. record { digits = n } };
}

impl Plan {
    pub fn length(self) -> usize
        ensures { result ≡ length_in self }
    {
        (self.digits % 16) as usize
    }

    pub fn out_ask(self) -> u32
        ensures { result ≡ out_ask_in self }
    {
        (self.digits / 16 % 16) as u32
    }

    pub fn first_ask(self) -> u32
        ensures { result ≡ first_ask_in self }
    {
        (self.digits / 256 % 32) as u32
    }

    pub fn second_ask(self) -> u32
        ensures { result ≡ second_ask_in self }
    {
        (self.digits / 8192 % 32) as u32
    }

    pub fn first_at(self) -> usize
        ensures { result ≡ first_at_in self }
    {
        (self.digits / 262144 % 4) as usize
    }

    pub fn second_at(self) -> usize
        ensures { result ≡ second_at_in self }
    {
        (self.digits / 1048576 % 4) as usize
    }

    pub fn byte_at(self) -> usize
        ensures { result ≡ byte_at_in self }
    {
        (self.digits / 4194304 % 8) as usize
    }

    pub fn byte_ask(self) -> u32
        ensures { result ≡ byte_ask_in self }
    {
        (self.digits / 33554432 % 256) as u32
    }

    pub fn more(self) -> u32
        ensures { result ≡ more_in self }
    {
        (self.digits / 8589934592 % 8) as u32
    }

    // The number of the test of the bytes after the operands.
    pub fn test(self) -> u32
        ensures { result ≡ test_as self }
    {
        (self.digits / 68719476736 % 16) as u32
    }
}
