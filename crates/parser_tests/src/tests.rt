mod accepted;
mod built;
mod recognised;
