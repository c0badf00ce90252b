use arrayvec::ArrayVec;

/// A response APDU of ISO/IEC 7816-4: at most 1,024 bytes of data, and the status word SW1 SW2.
#[derive(Clone, Debug, Drop)]
pub struct Reply {
    pub body: ArrayVec<u8, 1024>,
    pub sw: u16,
}
