// The shape of each kind: what the passes ask of its entry, in 16 bits.
#![tactic(auto)]

ghost use Rattle.std.specs.Prelude.{◌≡◌, ℕ, eqb, get_or};
ghost use Rattle.ops.specs.Rows.{computing};
ghost use Rattle.ops.specs.Roles.{role_or, role_meant};
ghost use Rattle.ops.specs.Table.{kind_table};
ghost use Rattle.ops.specs.Shapes.{shape_of, shape_table, outs_as, type_as, ins_as, rest_as, role_as, pure_as, computes_as, sets_as, jumps_as};

use ops::Role;
use std::marker::Model;

// A shape, in bits from the lowest: 2 for the outputs; 2 for the type of the first operand, 1 for 64 bits; 4 for the inputs; 4 for the bytes after the operands; 4 for
// the number of the role.
const SHAPES: [u16; 256] = [
    0x0000, // 00
    0x1200, // 01 declaration
    0x2100, // 02 set_label
    0x3100, // 03 br
    0x4014, // 04 exit_tb
    0x9015, // 05 ext_i32_i64
    0x9015, // 06 extu_i32_i64
    0x9011, // 07 trunc_i64_i32
    0x0000, // 08
    0x0000, // 09
    0x0000, // 0a
    0x0000, // 0b
    0x0000, // 0c
    0x0000, // 0d
    0x0000, // 0e
    0x0000, // 0f
    0x8801, // 10 movi_i32
    0x9011, // 11 mov_i32
    0x9011, // 12 neg_i32
    0x9011, // 13 not_i32
    0x9021, // 14 add_i32
    0x9021, // 15 sub_i32
    0x9021, // 16 mul_i32
    0x9021, // 17 and_i32
    0x9021, // 18 or_i32
    0x9021, // 19 xor_i32
    0x9021, // 1a andc_i32
    0x9021, // 1b orc_i32
    0x9021, // 1c eqv_i32
    0x9021, // 1d nand_i32
    0x9021, // 1e nor_i32
    0x9021, // 1f divs_i32
    0x9021, // 20 divu_i32
    0x9021, // 21 rems_i32
    0x9021, // 22 remu_i32
    0x9021, // 23 shl_i32
    0x9021, // 24 shr_i32
    0x9021, // 25 sar_i32
    0x9021, // 26 rotl_i32
    0x9021, // 27 rotr_i32
    0x9121, // 28 setcond_i32
    0x9141, // 29 movcond_i32
    0x5220, // 2a brcond_i32
    0x6111, // 2b qemu_ld_i32
    0x7120, // 2c qemu_st_i32
    0x9221, // 2d deposit_i32
    0x9211, // 2e extract_i32
    0x9211, // 2f sextract_i32
    0x9121, // 30 extract2_i32
    0x9111, // 31 bswap16_i32
    0x9111, // 32 bswap32_i32
    0x0000, // 33
    0x9021, // 34 clz_i32
    0x9021, // 35 ctz_i32
    0x9011, // 36 ctpop_i32
    0x0000, // 37
    0x0000, // 38
    0x0000, // 39
    0x0000, // 3a
    0x0000, // 3b
    0x0000, // 3c
    0x0000, // 3d
    0x0000, // 3e
    0x0000, // 3f
    0x0000, // 40
    0x0000, // 41
    0x0000, // 42
    0x0000, // 43
    0x0000, // 44
    0x0000, // 45
    0x0000, // 46
    0x0000, // 47
    0x0000, // 48
    0x0000, // 49
    0x0000, // 4a
    0x0000, // 4b
    0x0000, // 4c
    0x0000, // 4d
    0x0000, // 4e
    0x0000, // 4f
    0x0000, // 50
    0x0000, // 51
    0x0000, // 52
    0x0000, // 53
    0x0000, // 54
    0x0000, // 55
    0x0000, // 56
    0x0000, // 57
    0x0000, // 58
    0x0000, // 59
    0x0000, // 5a
    0x0000, // 5b
    0x0000, // 5c
    0x0000, // 5d
    0x0000, // 5e
    0x0000, // 5f
    0x0000, // 60
    0x0000, // 61
    0x0000, // 62
    0x0000, // 63
    0x0000, // 64
    0x0000, // 65
    0x0000, // 66
    0x0000, // 67
    0x0000, // 68
    0x0000, // 69
    0x0000, // 6a
    0x0000, // 6b
    0x0000, // 6c
    0x0000, // 6d
    0x0000, // 6e
    0x0000, // 6f
    0x0000, // 70
    0x0000, // 71
    0x0000, // 72
    0x0000, // 73
    0x0000, // 74
    0x0000, // 75
    0x0000, // 76
    0x0000, // 77
    0x0000, // 78
    0x0000, // 79
    0x0000, // 7a
    0x0000, // 7b
    0x0000, // 7c
    0x0000, // 7d
    0x0000, // 7e
    0x0000, // 7f
    0x0000, // 80
    0x0000, // 81
    0x0000, // 82
    0x0000, // 83
    0x0000, // 84
    0x0000, // 85
    0x0000, // 86
    0x0000, // 87
    0x0000, // 88
    0x0000, // 89
    0x0000, // 8a
    0x0000, // 8b
    0x0000, // 8c
    0x0000, // 8d
    0x0000, // 8e
    0x0000, // 8f
    0x8805, // 90 movi_i64
    0x9015, // 91 mov_i64
    0x9015, // 92 neg_i64
    0x9015, // 93 not_i64
    0x9025, // 94 add_i64
    0x9025, // 95 sub_i64
    0x9025, // 96 mul_i64
    0x9025, // 97 and_i64
    0x9025, // 98 or_i64
    0x9025, // 99 xor_i64
    0x9025, // 9a andc_i64
    0x9025, // 9b orc_i64
    0x9025, // 9c eqv_i64
    0x9025, // 9d nand_i64
    0x9025, // 9e nor_i64
    0x9025, // 9f divs_i64
    0x9025, // a0 divu_i64
    0x9025, // a1 rems_i64
    0x9025, // a2 remu_i64
    0x9025, // a3 shl_i64
    0x9025, // a4 shr_i64
    0x9025, // a5 sar_i64
    0x9025, // a6 rotl_i64
    0x9025, // a7 rotr_i64
    0x9125, // a8 setcond_i64
    0x9145, // a9 movcond_i64
    0x5224, // aa brcond_i64
    0x6115, // ab qemu_ld_i64
    0x7124, // ac qemu_st_i64
    0x9225, // ad deposit_i64
    0x9215, // ae extract_i64
    0x9215, // af sextract_i64
    0x9125, // b0 extract2_i64
    0x9115, // b1 bswap16_i64
    0x9115, // b2 bswap32_i64
    0x9115, // b3 bswap64_i64
    0x9025, // b4 clz_i64
    0x9025, // b5 ctz_i64
    0x9015, // b6 ctpop_i64
    0x0000, // b7
    0x0000, // b8
    0x0000, // b9
    0x0000, // ba
    0x0000, // bb
    0x0000, // bc
    0x0000, // bd
    0x0000, // be
    0x0000, // bf
    0x0000, // c0
    0x0000, // c1
    0x0000, // c2
    0x0000, // c3
    0x0000, // c4
    0x0000, // c5
    0x0000, // c6
    0x0000, // c7
    0x0000, // c8
    0x0000, // c9
    0x0000, // ca
    0x0000, // cb
    0x0000, // cc
    0x0000, // cd
    0x0000, // ce
    0x0000, // cf
    0x0000, // d0
    0x0000, // d1
    0x0000, // d2
    0x0000, // d3
    0x0000, // d4
    0x0000, // d5
    0x0000, // d6
    0x0000, // d7
    0x0000, // d8
    0x0000, // d9
    0x0000, // da
    0x0000, // db
    0x0000, // dc
    0x0000, // dd
    0x0000, // de
    0x0000, // df
    0x0000, // e0
    0x0000, // e1
    0x0000, // e2
    0x0000, // e3
    0x0000, // e4
    0x0000, // e5
    0x0000, // e6
    0x0000, // e7
    0x0000, // e8
    0x0000, // e9
    0x0000, // ea
    0x0000, // eb
    0x0000, // ec
    0x0000, // ed
    0x0000, // ee
    0x0000, // ef
    0x0000, // f0
    0x0000, // f1
    0x0000, // f2
    0x0000, // f3
    0x0000, // f4
    0x0000, // f5
    0x0000, // f6
    0x0000, // f7
    0x0000, // f8
    0x0000, // f9
    0x0000, // fa
    0x0000, // fb
    0x0000, // fc
    0x0000, // fd
    0x0000, // fe
    0x0000, // ff
];

// The table, which a call makes once and lends.
#[derive(Drop)]
pub struct Shapes {
    rows: [u16; 256],
    ghost is_table: { rows ≡ shape_table },
}

impl Shapes {
    pub fn new() -> Shapes {
        Shapes { rows: SHAPES }
    }

    // The shape of a kind.
    pub fn shape(&self, kind: u8) -> Shape
        ensures { result ≡ shape_of (get_or kind_table kind 0) }
    {
        shape_in(&self.rows, kind)
    }
}

// The shape of a kind in any table.
pub fn shape_in(shapes: &[u16; 256], kind: u8) -> Shape
    ensures { result ≡ get_or shapes.now kind 0 }
{
    Shape {
        digits: shapes[kind as usize],
    }
}

// A kind's shape, seen as the number that its digits make. They are others than an entry's, in half its bits: the passes read a shape for every op.
#[derive(Clone, Copy)]
pub struct Shape {
    pub digits: u16,
}

impl Model for Shape {
    ghost Value = { ℕ };

    ghost view = { λ s. s.digits };

    ghost inverse = { λ n. record { digits = n } };
}

impl Shape {
    pub fn outs(self) -> usize
        ensures { result ≡ outs_as self }
    {
        (self.digits % 4) as usize
    }

    // Whether the first operand has the 32-bit type.
    pub fn is_narrow(self) -> bool
        ensures { result ≡ eqb (type_as self) 0 }
    {
        self.digits / 4 % 4 == 0
    }

    pub fn ins(self) -> usize
        ensures { result ≡ ins_as self }
    {
        (self.digits / 16 % 16) as usize
    }

    // How many bytes follow the operands.
    pub fn rest(self) -> usize
        ensures { result ≡ rest_as self }
    {
        (self.digits / 256 % 16) as usize
    }

    // The number of the role.
    pub fn role_number(self) -> u32
        ensures { result ≡ role_as self }
    {
        (self.digits / 4096) as u32
    }

    // The role, Computing for a number that is none's.
    pub fn role(self) -> Role
        ensures { role_meant result ≡ role_or (role_as self) computing }
    {
        Role::from_number(self.role_number(), Role::Computing)
    }

    pub fn is_pure(self) -> bool
        ensures { result ≡ pure_as self }
    {
        self.role().is_pure()
    }

    pub fn is_computing(self) -> bool
        ensures { result ≡ computes_as self }
    {
        self.role().is_computing()
    }

    // The op sets a label; it may jump to one.
    pub fn is_setting(self) -> bool
        ensures { result ≡ sets_as self }
    {
        self.role().is_setting()
    }

    pub fn is_jumping(self) -> bool
        ensures { result ≡ jumps_as self }
    {
        self.role().is_jumping()
    }
}
