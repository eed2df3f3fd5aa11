use message_parts::Parcel;
use seat_states::Author;

/// A message at the home of a request, and who sent it.
#[derive(Drop)]
pub struct HomeMessage {
    pub author: Author,
    pub message: Parcel,
}
