// What every refusal is handed back as: its number, its place and its value.
#[derive(Drop)]
pub struct Refusal {
    pub number: u8,
    pub place: usize,
    pub value: i64,
}
