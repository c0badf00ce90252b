// The rounds of FIPS 197 and their inverses, column by column.

ghost use Rattle.std.specs.Prelude.{◌≡◌, ℕ, [], ◌∷◌, slice_index, map};
ghost use Rattle.model_machine.specs.Modes.{bit_sum};
ghost use Rattle.model_machine.specs.Aes.{mul, sub, sub_back, times_matrix, round, last_round, round_back, last_round_back, mix_columns_back, shift_rows_back};
ghost use Rattle.mc_aes.specs.State.{word, state_bytes, substitutes_of, bytes_back_of};

use crate::state::{State, add, byte0, byte1, byte2, byte3, joined};
use crate::tables::{
    column_back0, column_back1, column_back2, column_back3, column0, column1, column2, column3,
    substitute, substitute_back,
};

// A column of the next state: SubBytes and ShiftRows of one byte of each word, MixColumns, and AddRoundKey
// with the key's word.
#[inline]
fn round_column(row0: u32, row1: u32, row2: u32, row3: u32, key: u32) -> u32
    ensures { word result ≡ bit_sum (times_matrix 2 3 1 1 (substitutes_of row0 row1 row2 row3)) (word key) }
{
    column0(byte0(row0)) ^ column1(byte1(row1)) ^ column2(byte2(row2)) ^ column3(byte3(row3)) ^ key
}

#[inline]
pub fn round(s: State, key: State) -> State
    ensures { state_bytes result ≡ round (state_bytes key) (state_bytes s) }
{
    State {
        first: round_column(s.first, s.second, s.third, s.fourth, key.first),
        second: round_column(s.second, s.third, s.fourth, s.first, key.second),
        third: round_column(s.third, s.fourth, s.first, s.second, key.third),
        fourth: round_column(s.fourth, s.first, s.second, s.third, key.fourth),
    }
}

// A column of the last state: SubBytes and ShiftRows of one byte of each word, and AddRoundKey with the key's
// word.
#[inline]
fn last_column(row0: u32, row1: u32, row2: u32, row3: u32, key: u32) -> u32
    ensures { word result ≡ bit_sum (substitutes_of row0 row1 row2 row3) (word key) }
{
    let substitutes = joined(
        substitute(byte0(row0)),
        substitute(byte1(row1)),
        substitute(byte2(row2)),
        substitute(byte3(row3)),
    );
    substitutes ^ key
}

#[inline]
pub fn last_round(s: State, key: State) -> State
    ensures { state_bytes result ≡ last_round (state_bytes key) (state_bytes s) }
{
    State {
        first: last_column(s.first, s.second, s.third, s.fourth, key.first),
        second: last_column(s.second, s.third, s.fourth, s.first, key.second),
        third: last_column(s.third, s.fourth, s.first, s.second, key.third),
        fourth: last_column(s.fourth, s.first, s.second, s.third, key.fourth),
    }
}

// InvMixColumns of a column.
#[inline]
fn mixed_back(w: u32) -> u32
    ensures { word result ≡ times_matrix 14 11 13 9 (word w) }
{
    column_back0(byte0(w))
        ^ column_back1(byte1(w))
        ^ column_back2(byte2(w))
        ^ column_back3(byte3(w))
}

// InvShiftRows and InvSubBytes of one byte of each word, as a column.
#[inline]
fn bytes_back(row0: u32, row1: u32, row2: u32, row3: u32) -> u32
    ensures { word result ≡ bytes_back_of row0 row1 row2 row3 }
{
    joined(
        substitute_back(byte0(row0)),
        substitute_back(byte1(row1)),
        substitute_back(byte2(row2)),
        substitute_back(byte3(row3)),
    )
}

#[inline]
fn rows_back(s: State) -> State
    ensures { state_bytes result ≡ map sub_back (shift_rows_back (state_bytes s)) }
{
    State {
        first: bytes_back(s.first, s.fourth, s.third, s.second),
        second: bytes_back(s.second, s.first, s.fourth, s.third),
        third: bytes_back(s.third, s.second, s.first, s.fourth),
        fourth: bytes_back(s.fourth, s.third, s.second, s.first),
    }
}

#[inline]
pub fn last_round_back(s: State, key: State) -> State
    ensures { state_bytes result ≡ last_round_back (state_bytes key) (state_bytes s) }
{
    rows_back(add(s, key))
}

#[inline]
pub fn round_back(s: State, key: State) -> State
    ensures { state_bytes result ≡ round_back (state_bytes key) (state_bytes s) }
{
    let sum = add(s, key);
    rows_back(State {
        first: mixed_back(sum.first),
        second: mixed_back(sum.second),
        third: mixed_back(sum.third),
        fourth: mixed_back(sum.fourth),
    })
}
