mod calls;
mod contexts;
mod sub_buffers;
mod wakeups;
