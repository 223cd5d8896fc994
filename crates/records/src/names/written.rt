// A writer into a lent buffer answers the length of what it wrote, or why it wrote nothing: 4 and the place of the first record whose
// values its layout can't hold; 41 where the buffer is too short. Then the buffer keeps its bytes.
#[derive(Clone, Copy)]
pub enum NotWritten {
    Fault(usize),
    Long,
}
