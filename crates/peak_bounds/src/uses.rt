/// A use of an item: by whom it is made, if by a task, and by whom it is read, if by one.
#[derive(Clone, Copy)]
pub struct Use {
    pub from: Option<u32>,
    pub to: Option<u32>,
}
