// What the two models may differ in.
#[derive(Clone, Copy)]
pub enum Differing {
    Reading,
    Frame,
    Change,
    Scanned,
    Cell,
    PageCell,
    Q,
    QDriven,
    PastCount,
    Latched,
    Marks,
    Waits,
    StatusWaits,
    PageWaits,
    Cycle,
    Left,
    Last,
    Blank,
    Part,
    Lock,
    Status,
}

impl Differing {
    // Its label where the first difference is printed.
    pub fn label(self) -> &'static str {
        match self {
            Differing::Reading => "number of a reading",
            Differing::Frame => "number of a frame",
            Differing::Change => "number of a change",
            Differing::Scanned => "blank cells, scanned",
            Differing::Cell => "cell",
            Differing::PageCell => "identification cell",
            Differing::Q => "Q at clock",
            Differing::QDriven => "Q driven at clock",
            Differing::PastCount => "output past count",
            Differing::Latched => "latched byte",
            Differing::Marks => "word of marks",
            Differing::Waits => "what waits",
            Differing::StatusWaits => "status that waits",
            Differing::PageWaits => "page that waits",
            Differing::Cycle => "cycle length",
            Differing::Left => "time left",
            Differing::Last => "last reading",
            Differing::Blank => "blank cells",
            Differing::Part => "part",
            Differing::Lock => "lock",
            Differing::Status => "status byte",
        }
    }
}
