/// A count in 32 bits. A greater one is read as the greatest.
pub fn narrowed(count: usize) -> u32 {
    if count <= u32::MAX as usize {
        count as u32
    } else {
        u32::MAX
    }
}

/// The item at a place, or another where there is none.
pub fn item<T: Copy>(items: &[T], place: u32, other: T) -> T {
    match items.get(place as usize) {
        Some(item) => *item,
        None => other,
    }
}

/// Puts an item at a place, where there is one.
pub fn put<T: Copy>(items: &mut [T], place: u32, item: T) {
    let place = place as usize;
    if place < items.len() {
        items[place] = item;
    }
}
