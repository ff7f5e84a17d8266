// The table of kinds, and the digits of an entry.
#![tactic(auto)]

ghost use Rattle.std.specs.Prelude.{◌≡◌, ℕ, leb, get_or, ◌+◌};
ghost use Rattle.ops.specs.Rows.{outs_in, ins_in, rest_in, test_in, role_in, types_in, role_no, is_known, is_setting, is_jumping};
ghost use Rattle.ops.specs.Roles.{role_meant};
ghost use Rattle.ops.specs.Table.{kind_table};

use ops::Role;
use std::marker::Model;

// A kind's entry, in hexadecimal digits from the lowest: its outputs, its inputs, the bytes after them, the number of their test, the number of its
// role; then the types of its operands, two bits each, 1 for 64 bits. 0 for a kind that is unknown.
// Roles: 1 declares, 2 sets a label, 3 jumps, 4 exits, 5 branches, 6 loads, 7 stores, 8 constant, 9 computing.
const KINDS: [u32; 256] = [
    0x00000000, // 00
    0x00010200, // 01 declaration
    0x00021100, // 02 set_label
    0x00031100, // 03 br
    0x00140010, // 04 exit_tb
    0x00190011, // 05 ext_i32_i64
    0x00190011, // 06 extu_i32_i64
    0x00490011, // 07 trunc_i64_i32
    0x00000000, // 08
    0x00000000, // 09
    0x00000000, // 0a
    0x00000000, // 0b
    0x00000000, // 0c
    0x00000000, // 0d
    0x00000000, // 0e
    0x00000000, // 0f
    0x00088801, // 10 movi_i32
    0x00090011, // 11 mov_i32
    0x00090011, // 12 neg_i32
    0x00090011, // 13 not_i32
    0x00090021, // 14 add_i32
    0x00090021, // 15 sub_i32
    0x00090021, // 16 mul_i32
    0x00090021, // 17 and_i32
    0x00090021, // 18 or_i32
    0x00090021, // 19 xor_i32
    0x00090021, // 1a andc_i32
    0x00090021, // 1b orc_i32
    0x00090021, // 1c eqv_i32
    0x00090021, // 1d nand_i32
    0x00090021, // 1e nor_i32
    0x00090021, // 1f divs_i32
    0x00090021, // 20 divu_i32
    0x00090021, // 21 rems_i32
    0x00090021, // 22 remu_i32
    0x00090021, // 23 shl_i32
    0x00090021, // 24 shr_i32
    0x00090021, // 25 sar_i32
    0x00090021, // 26 rotl_i32
    0x00090021, // 27 rotr_i32
    0x00092121, // 28 setcond_i32
    0x00092141, // 29 movcond_i32
    0x00053220, // 2a brcond_i32
    0x00464111, // 2b qemu_ld_i32
    0x00476120, // 2c qemu_st_i32
    0x00099221, // 2d deposit_i32
    0x00099211, // 2e extract_i32
    0x00099211, // 2f sextract_i32
    0x0009b121, // 30 extract2_i32
    0x0009d111, // 31 bswap16_i32
    0x0009e111, // 32 bswap32_i32
    0x00000000, // 33
    0x00090021, // 34 clz_i32
    0x00090021, // 35 ctz_i32
    0x00090011, // 36 ctpop_i32
    0x00000000, // 37
    0x00000000, // 38
    0x00000000, // 39
    0x00000000, // 3a
    0x00000000, // 3b
    0x00000000, // 3c
    0x00000000, // 3d
    0x00000000, // 3e
    0x00000000, // 3f
    0x00000000, // 40
    0x00000000, // 41
    0x00000000, // 42
    0x00000000, // 43
    0x00000000, // 44
    0x00000000, // 45
    0x00000000, // 46
    0x00000000, // 47
    0x00000000, // 48
    0x00000000, // 49
    0x00000000, // 4a
    0x00000000, // 4b
    0x00000000, // 4c
    0x00000000, // 4d
    0x00000000, // 4e
    0x00000000, // 4f
    0x00000000, // 50
    0x00000000, // 51
    0x00000000, // 52
    0x00000000, // 53
    0x00000000, // 54
    0x00000000, // 55
    0x00000000, // 56
    0x00000000, // 57
    0x00000000, // 58
    0x00000000, // 59
    0x00000000, // 5a
    0x00000000, // 5b
    0x00000000, // 5c
    0x00000000, // 5d
    0x00000000, // 5e
    0x00000000, // 5f
    0x00000000, // 60
    0x00000000, // 61
    0x00000000, // 62
    0x00000000, // 63
    0x00000000, // 64
    0x00000000, // 65
    0x00000000, // 66
    0x00000000, // 67
    0x00000000, // 68
    0x00000000, // 69
    0x00000000, // 6a
    0x00000000, // 6b
    0x00000000, // 6c
    0x00000000, // 6d
    0x00000000, // 6e
    0x00000000, // 6f
    0x00000000, // 70
    0x00000000, // 71
    0x00000000, // 72
    0x00000000, // 73
    0x00000000, // 74
    0x00000000, // 75
    0x00000000, // 76
    0x00000000, // 77
    0x00000000, // 78
    0x00000000, // 79
    0x00000000, // 7a
    0x00000000, // 7b
    0x00000000, // 7c
    0x00000000, // 7d
    0x00000000, // 7e
    0x00000000, // 7f
    0x00000000, // 80
    0x00000000, // 81
    0x00000000, // 82
    0x00000000, // 83
    0x00000000, // 84
    0x00000000, // 85
    0x00000000, // 86
    0x00000000, // 87
    0x00000000, // 88
    0x00000000, // 89
    0x00000000, // 8a
    0x00000000, // 8b
    0x00000000, // 8c
    0x00000000, // 8d
    0x00000000, // 8e
    0x00000000, // 8f
    0x00180801, // 90 movi_i64
    0x00590011, // 91 mov_i64
    0x00590011, // 92 neg_i64
    0x00590011, // 93 not_i64
    0x01590021, // 94 add_i64
    0x01590021, // 95 sub_i64
    0x01590021, // 96 mul_i64
    0x01590021, // 97 and_i64
    0x01590021, // 98 or_i64
    0x01590021, // 99 xor_i64
    0x01590021, // 9a andc_i64
    0x01590021, // 9b orc_i64
    0x01590021, // 9c eqv_i64
    0x01590021, // 9d nand_i64
    0x01590021, // 9e nor_i64
    0x01590021, // 9f divs_i64
    0x01590021, // a0 divu_i64
    0x01590021, // a1 rems_i64
    0x01590021, // a2 remu_i64
    0x01590021, // a3 shl_i64
    0x01590021, // a4 shr_i64
    0x01590021, // a5 sar_i64
    0x01590021, // a6 rotl_i64
    0x01590021, // a7 rotr_i64
    0x01592121, // a8 setcond_i64
    0x15592141, // a9 movcond_i64
    0x00553220, // aa brcond_i64
    0x00565111, // ab qemu_ld_i64
    0x00577120, // ac qemu_st_i64
    0x0159a221, // ad deposit_i64
    0x0059a211, // ae extract_i64
    0x0059a211, // af sextract_i64
    0x0159c121, // b0 extract2_i64
    0x0059d111, // b1 bswap16_i64
    0x0059d111, // b2 bswap32_i64
    0x0059e111, // b3 bswap64_i64
    0x01590021, // b4 clz_i64
    0x01590021, // b5 ctz_i64
    0x00590011, // b6 ctpop_i64
    0x00000000, // b7
    0x00000000, // b8
    0x00000000, // b9
    0x00000000, // ba
    0x00000000, // bb
    0x00000000, // bc
    0x00000000, // bd
    0x00000000, // be
    0x00000000, // bf
    0x00000000, // c0
    0x00000000, // c1
    0x00000000, // c2
    0x00000000, // c3
    0x00000000, // c4
    0x00000000, // c5
    0x00000000, // c6
    0x00000000, // c7
    0x00000000, // c8
    0x00000000, // c9
    0x00000000, // ca
    0x00000000, // cb
    0x00000000, // cc
    0x00000000, // cd
    0x00000000, // ce
    0x00000000, // cf
    0x00000000, // d0
    0x00000000, // d1
    0x00000000, // d2
    0x00000000, // d3
    0x00000000, // d4
    0x00000000, // d5
    0x00000000, // d6
    0x00000000, // d7
    0x00000000, // d8
    0x00000000, // d9
    0x00000000, // da
    0x00000000, // db
    0x00000000, // dc
    0x00000000, // dd
    0x00000000, // de
    0x00000000, // df
    0x00000000, // e0
    0x00000000, // e1
    0x00000000, // e2
    0x00000000, // e3
    0x00000000, // e4
    0x00000000, // e5
    0x00000000, // e6
    0x00000000, // e7
    0x00000000, // e8
    0x00000000, // e9
    0x00000000, // ea
    0x00000000, // eb
    0x00000000, // ec
    0x00000000, // ed
    0x00000000, // ee
    0x00000000, // ef
    0x00000000, // f0
    0x00000000, // f1
    0x00000000, // f2
    0x00000000, // f3
    0x00000000, // f4
    0x00000000, // f5
    0x00000000, // f6
    0x00000000, // f7
    0x00000000, // f8
    0x00000000, // f9
    0x00000000, // fa
    0x00000000, // fb
    0x00000000, // fc
    0x00000000, // fd
    0x00000000, // fe
    0x00000000, // ff
];

// The table, which a call makes once and lends.
#[derive(Drop)]
pub struct Kinds {
    rows: [u32; 256],
    ghost is_table: { rows ≡ kind_table },
}

impl Kinds {
    pub fn new() -> Kinds {
        Kinds { rows: KINDS }
    }

    // The entry of a kind.
    pub fn entry(&self, kind: u8) -> Entry
        ensures { result ≡ get_or kind_table kind 0 }
    {
        entry_in(&self.rows, kind)
    }
}

// The entry of a kind in any table.
pub fn entry_in(kinds: &[u32; 256], kind: u8) -> Entry
    ensures { result ≡ get_or kinds.now kind 0 }
{
    Entry {
        digits: kinds[kind as usize],
    }
}

// A kind's entry, seen as the number that its digits make.
#[derive(Clone, Copy)]
pub struct Entry {
    pub digits: u32,
}

impl Model for Entry {
    ghost Value = { ℕ };

    ghost view = { λ e. e.digits };

    ghost inverse = { λ n. record { digits = n } };
}

impl Entry {
    fn outs(self) -> usize
        ensures { result ≡ outs_in self }
    {
        (self.digits % 16) as usize
    }

    fn ins(self) -> usize
        ensures { result ≡ ins_in self }
    {
        (self.digits / 16 % 16) as usize
    }

    // How many bytes follow the operands.
    pub fn rest(self) -> usize
        ensures { result ≡ rest_in self }
    {
        (self.digits / 256 % 16) as usize
    }

    // The number of their test.
    pub fn test(self) -> u32
        ensures { result ≡ test_in self }
    {
        self.digits / 4096 % 16
    }

    // The role, Unknown for a number that is none's.
    fn role(self) -> Role
        ensures { role_meant result ≡ role_no (role_in self) }
    {
        Role::from_number(self.digits / 65536 % 16, Role::Unknown)
    }

    // The types of the operands, two bits each, the first lowest.
    pub fn types(self) -> u32
        ensures { result ≡ types_in self }
    {
        self.digits / 1048576
    }

    pub fn operand_count(self) -> usize
        ensures { result ≡ outs_in self + ins_in self }
    {
        self.outs() + self.ins()
    }

    pub fn body_length(self) -> usize
        ensures { result ≡ outs_in self + ins_in self + rest_in self }
    {
        self.operand_count() + self.rest()
    }

    pub fn is_known(self) -> bool
        ensures { result ≡ is_known (role_no (role_in self)) }
    {
        self.role().is_known()
    }

    // The op sets a label; it may jump to one.
    pub fn is_setting(self) -> bool
        ensures { result ≡ is_setting (role_no (role_in self)) }
    {
        self.role().is_setting()
    }

    pub fn is_jumping(self) -> bool
        ensures { result ≡ is_jumping (role_no (role_in self)) }
    {
        self.role().is_jumping()
    }
}

// The op has its 64-bit form.
pub fn is_wide(kind: u8) -> bool
    ensures { result ≡ leb 0x80 kind }
{
    0x80 <= kind
}
