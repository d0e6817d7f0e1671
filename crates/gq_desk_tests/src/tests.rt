mod boards;
mod desk_events;
mod driving;
mod event_lists;
mod news;
mod superseded;
mod taker;
